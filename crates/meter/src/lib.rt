// The meter: each event gives the answer, the reply and the next state that document 01 rules, for any byte, state and buffer.
#![tactic(auto)]

ghost use Rattle.std.specs.Prelude.{◌≡◌, true, ◌≤◌, length};
ghost use Rattle.text.specs.Writing.{holding};
ghost use Rattle.frames.specs.Frames.{on_wire};
ghost use Rattle.state.specs.Sizes.{reply_room};
ghost use Rattle.state.specs.WellFormed.{well_formed};
ghost use Rattle.meter.specs.Outcomes.{answer_of};
ghost use Rattle.meter.specs.Unheard.{number_of, unheard_by, short_of};
ghost use Rattle.meter.specs.Character.{symbol, heard, taken, character};
ghost use Rattle.meter.specs.Events.{silence};
ghost use Rattle.meter.specs.Deeds.{acts};

use clock::Clock;
use receiving::Hearing;
use replies::{Ask, Plain};
use state::setting::with_receiver;
use state::{Facts, Meter, REPLY_ROOM, Receiver};
use values::TableNo;

pub mod acting;
mod after;
mod answers;
pub mod deeds;
pub mod events;
mod link;
pub mod passing;

// What can happen: a byte from the line, eight seconds of silence, a second, a pulse of so many units that came in, power-up, one of so many that
// went out; or nothing that a meter knows.
#[derive(Clone, Copy)]
pub enum Event {
    Character(u8),
    Silence,
    Tick,
    Pulse(u32),
    PowerUp,
    PulseOut(u32),
    Unknown,
}

// What an event with a reply buffer gives: the number, the reply's length, its speed, with 3 the place of the first damaged character, and the next state.
// Stays: a refusal of the dialogue has a reply, a speed and a next state as well, so an Err would carry all that an Ok does.
#[derive(Clone, Copy)]
pub struct Answer {
    pub number: u8,
    pub length: usize,
    pub speed: u8,
    pub place: u8,
    pub next: Meter,
}

// What decides of a meter, besides what it holds: its session, what is known of what it holds, and what it has for life.
#[derive(Clone, Copy)]
pub struct Standing {
    pub mode: u8,
    pub attempts: u8,
    pub speed: u8,
    pub count: u8,
    pub mark: u8,
    pub place: u8,
    pub facts: Facts,
}

// A meter but for its tables and its archive, which are long.
#[derive(Clone, Copy)]
pub struct Small {
    pub mode: u8,
    pub attempts: u8,
    pub speed: u8,
    pub receiver: Receiver,
    pub plain: Plain,
}

// What is said.
#[derive(Clone, Copy)]
pub enum Says {
    Nothing,
    Refusal,
    Identification,
    Block,
    Invitation,
    Accepted,
    Asked(Ask),
}

// What is written of the registers; the account and the row are what the receiver holds of them.
#[derive(Clone, Copy)]
pub enum Writes {
    None,
    ClockSet(Clock),
    AccountSet,
    RowSet(TableNo),
    Closed,
    MonthClosed(Clock),
}

// Stays: the number is document 01's for C, where 0 to 2 are no refusals; an enum of all of them would be turned back at once.
// What an event comes to: the answer's number, place and speed; the session's mode, attempts and speed after it; whether the receiver is emptied; what is
// said, with the closed periods where it is long, and what is written.
#[derive(Clone, Copy)]
pub struct Deed {
    pub number: u8,
    pub place: u8,
    pub speed: u8,
    pub mode: u8,
    pub attempts: u8,
    pub rate: u8,
    pub empties: bool,
    pub long: bool,
    pub says: Says,
    pub writes: Writes,
}

// What is answered, and what is stored of a meter; the tables and the archive follow from what is written.
// Stays: as `Answer`; the arrays are fields of C's record, and the length is the reply's.
#[derive(Clone, Copy)]
pub struct Acted {
    pub number: u8,
    pub length: usize,
    pub speed: u8,
    pub place: u8,
    pub mode: u8,
    pub attempts: u8,
    pub rate: u8,
    pub receiver: Receiver,
    pub account: [u8; 10],
    pub clock: Clock,
    pub writes: Writes,
}

// Why an event changes nothing.
#[derive(Clone, Copy)]
pub enum Unheard {
    // An edition that there is none of: 16.
    NoEdition,
    // A reply buffer without room: 12.
    NoRoom,
    // A pulse that the family doesn't count: 13.
    BadPulse,
    // No event: 99.
    NoEvent,
    // A state that is not well-formed: 14.
    BadState,
}

impl Unheard {
    // Document 01's number.
    #[tactic(auto, unfolding(crate::specs::Unheard::number_of))]
    fn number(self) -> u8
        ensures { result ≡ number_of self }
    {
        match self {
            Unheard::NoEdition => 16,
            Unheard::NoRoom => 12,
            Unheard::BadPulse => 13,
            Unheard::NoEvent => 99,
            Unheard::BadState => 14,
        }
    }
}

// Why a meter doesn't hear an event, if it doesn't: its edition, then what the event is refused for by itself, then its state.
#[tactic(auto, unfolding(crate::specs::Unheard::unheard_by))]
fn refused(m: &Meter, own: Option<Unheard>) -> Option<Unheard>
    ensures { result ≡ unheard_by m.now own }
{
    if !values::is_edition(m.registers.facts.edition) {
        return Some(Unheard::NoEdition);
    }
    if own.is_some() {
        return own;
    }
    if !state::is_well_formed(*m) {
        return Some(Unheard::BadState);
    }
    None
}

// A reply buffer by itself.
fn short(room: usize) -> Option<Unheard>
    ensures { result ≡ short_of room }
{
    if room < REPLY_ROOM {
        return Some(Unheard::NoRoom);
    }
    None
}

// A character of a wire byte; a damaged one is taken as 0.
pub fn symbol_of(b: u8) -> u8
    ensures { result ≡ symbol b }
{
    if line::damaged(b) {
        return 0;
    }
    line::character(b)
}

// A character that ends a line, a confirmation or a frame, or is one too many of a frame.
fn act_on(m: Meter, h: Hearing, c: u8, damaged: bool, reply: &mut [u8]) -> Answer
    requires { ((well_formed m ≡ true) × (reply_room ≤ length reply.old)) × (acts h ≡ true) }
    ensures result { result ≡ answer_of (heard m c damaged h) }
    ensures held { reply.new ≡ holding reply.old (on_wire (heard m c damaged h).reply) }
{
    let s = acting::small_of(m);
    let d = deeds::of_hearing(deeds::standing_in(s), &m.receiver.held, h, c, damaged);
    acting::perform(m, d, reply)
}

// A character, taken by a well-formed meter with room for any reply.
fn take(m: Meter, b: u8, reply: &mut [u8]) -> Answer
    requires { (well_formed m ≡ true) × (reply_room ≤ length reply.old) }
    ensures result { result ≡ answer_of (taken m b) }
    ensures held { reply.new ≡ holding reply.old (on_wire (taken m b).reply) }
{
    let damaged = line::damaged(b);
    let c = symbol_of(b);
    let r = m.receiver;
    let h = receiving::hear(m.mode, r.count, receiving::last_held(r), c);
    match h {
        Hearing::Drop => answers::quiet(0, m),
        Hearing::Hold => answers::quiet(0, with_receiver(m, receiving::keep(r, c, damaged))),
        Hearing::Restart => answers::quiet(0, with_receiver(m, receiving::restart(c))),
        Hearing::Empty => answers::quiet(0, with_receiver(m, state::setting::empty_receiver())),
        Hearing::Line | Hearing::Confirm | Hearing::Frame | Hearing::TooLong => {
            act_on(m, h, c, damaged, reply)
        }
    }
}

// A received character.
pub fn receive(m: Meter, b: u8, reply: &mut [u8]) -> Answer
    ensures result { result ≡ answer_of (character m (length reply.old) b) }
    ensures held { reply.new ≡ holding reply.old (on_wire (character m (length reply.old) b).reply) }
{
    match refused(&m, short(reply.len())) {
        None => take(m, b, reply),
        Some(why) => answers::unheard_with(why.number(), m),
    }
}

// Eight seconds of silence.
pub fn hear_nothing(m: Meter, reply: &mut [u8]) -> Answer
    ensures result { result ≡ answer_of (silence m (length reply.old)) }
    ensures held { reply.new ≡ holding reply.old (on_wire (silence m (length reply.old)).reply) }
{
    match refused(&m, short(reply.len())) {
        None => after::silence(m, reply),
        Some(why) => answers::unheard_with(why.number(), m),
    }
}
