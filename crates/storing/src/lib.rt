// What an event that a meter acts on leaves of it, stored where its record lies: for every library that holds a host's record.
// A record is too long to be handed on, so these functions pass values on, and store what is small.
#![tactic(auto)]

ghost use Rattle.std.specs.Prelude.{◌≡◌, true, length};
ghost use Rattle.text.specs.Writing.{holding};
ghost use Rattle.frames.specs.Frames.{on_wire};
ghost use Rattle.state.specs.Sizes.{held_places};
ghost use Rattle.state.specs.WellFormed.{family_of, well_formed};
ghost use Rattle.meter.specs.Life.{event_of, refusal};
ghost use Rattle.meter.specs.Deeds.{Writable, tables_after, stored_in, done};
ghost use Rattle.settling.specs.Acting.{deed_of};
ghost use Rattle.storing.specs.Replies.{reply_to, reply_of};

use meter::{Acted, acting};
use state::{ALL_ROWS, Meter, Receiver, closing};

// What is left of an answer once its next state lies in the record.
// Stays: number, speed and place are what C is handed.
#[derive(Clone, Copy)]
pub struct Reply {
    pub number: u8,
    pub length: usize,
    pub speed: u8,
    pub place: u8,
}

// What a deed answers; the row that it writes is put where it belongs.
fn put_row(rows: &mut [u8; ALL_ROWS], r: Receiver, a: Acted) -> Reply
    requires { Writable a.writes × (length r.held ≡ held_places) }
    ensures { (result ≡ reply_to a) × (rows.new ≡ tables_after r.held rows.old a.writes) }
{
    acting::put_row(rows, r, a.writes);
    Reply {
        number: a.number,
        length: a.length,
        speed: a.speed,
        place: a.place,
    }
}

// What a deed leaves of a well-formed meter, stored where it lies; and its answer.
fn store(m: &mut Meter, a: Acted) -> Reply
    requires { (well_formed m.old ≡ true) × Writable a.writes }
    ensures { (result ≡ reply_to a) × (m.new ≡ stored_in m.old a) }
{
    let told = put_row(&mut m.registers.tables, m.receiver, a);
    m.mode = a.mode;
    m.attempts = a.attempts;
    m.speed = a.rate;
    m.receiver = a.receiver;
    let account = a.account;
    m.registers.account = account;
    m.registers.clock = a.clock;
    if acting::closes(a.writes) {
        m.registers.archive = closing::close_with(
            m.registers.archive,
            a.clock,
            m.registers.counters,
            m.registers.exported,
        );
    }
    told
}

// An event that is not settled, and that nothing refuses; the record becomes the next state.
pub fn act_in_place(m: &mut Meter, kind: u8, value: u32, reply: &mut [u8]) -> Reply
    requires { (well_formed m.old ≡ true) × (refusal (family_of m.old) (length reply.old) (event_of kind value) ≡ 0) }
    ensures { (result ≡ reply_of (done m.old (deed_of m.old (event_of kind value))))
        × (m.new ≡ (done m.old (deed_of m.old (event_of kind value))).next)
        × (reply.new ≡ holding reply.old (on_wire (done m.old (deed_of m.old (event_of kind value))).reply)) }
{
    let a = settling::act(&*m, kind, value, reply);
    store(m, a)
}

// An answer as C takes it: the number, and the rest where the caller asks for it.
pub fn tell(r: Reply, count: &mut usize, speed: &mut u8, place: &mut u8) -> u8
    ensures { (result ≡ r.number) × (count.new ≡ r.length) × (speed.new ≡ r.speed) × (place.new ≡ r.place) }
{
    *count = r.length;
    *speed = r.speed;
    *place = r.place;
    r.number
}
