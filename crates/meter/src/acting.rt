// A deed done: what it says put into the reply, what is stored of the meter, and last its tables and its archive.
ghost use Rattle.std.specs.Prelude.{◌≡◌, true, false, cond, ◌++◌, ◌+◌, ◌≤◌, length, take};
ghost use Rattle.line.specs.Quoted.{chars};
ghost use Rattle.text.specs.Writing.{stored, holding};
ghost use Rattle.frames.specs.Frames.{sealed, on_wire};
ghost use Rattle.state.specs.Sizes.{held_places, period_places, reply_room};
ghost use Rattle.state.specs.Making.{empty_receiver};
ghost use Rattle.state.specs.WellFormed.{well_formed, archive_good};
ghost use Rattle.replies.specs.Plain.{registers_of, without_archive};
ghost use Rattle.meter.specs.Outcomes.{answer_of};
ghost use Rattle.meter.specs.Deeds.{RoomFor, Writable, plain_of, small_of, short_said, long_said, long_begun, said_by, account_after, clock_after, tables_after, closes_after, answered, acted_with, archive_after, stored_in, done};

use crate::{Acted, Answer, Deed, Says, Small, Writes, link};
use clock::Clock;
use replies::Plain;
use state::setting::{
    empty_receiver, row_start, ten, with_account, with_archive, with_clock, with_registers,
    with_tables,
};
use state::{ALL_ROWS, Archive, HELD_PLACES, Meter, Receiver, Registers};

// The registers but for what is long.
fn plain_of(g: Registers) -> Plain
    ensures { result ≡ plain_of g }
{
    let account = g.account;
    Plain {
        facts: g.facts,
        account,
        clock: g.clock,
        counters: g.counters,
        exported: g.exported,
    }
}

// The meter but for what is long.
pub fn small_of(m: Meter) -> Small
    ensures { result ≡ small_of m }
{
    Small {
        mode: m.mode,
        attempts: m.attempts,
        speed: m.speed,
        receiver: m.receiver,
        plain: plain_of(m.registers),
    }
}

// What is said, put into the reply.
fn say(says: Says, p: Plain, rows: &[u8; ALL_ROWS], reply: &mut [u8]) -> usize
    requires { (length p.facts.serial ≡ 10) × RoomFor false says (length reply.old) }
    ensures whole { result ≡ length (short_said (without_archive p rows.now) says) }
    ensures held { reply.new ≡ holding reply.old (on_wire (short_said (without_archive p rows.now) says)) }
{
    let f = p.facts;
    match says {
        Says::Nothing => 0,
        Says::Refusal => link::refuse(f.link, reply),
        Says::Identification => link::identify(f.link, f.edition, &f.serial, reply),
        Says::Block => replies::data_block(reply, p, rows, values::tables_of(f.edition)),
        Says::Invitation => replies::ask_password(reply),
        Says::Accepted => replies::acknowledge(reply),
        Says::Asked(a) => replies::answer(reply, p, rows, a),
    }
}

// The account after a write.
fn account_after(held: &[u8; HELD_PLACES as usize], account: [u8; 10], w: Writes) -> [u8; 10]
    ensures { result ≡ account_after held.now account w }
{
    match w {
        Writes::AccountSet => ten(text::first(text::rest(held, 6), 10)),
        _ => account,
    }
}

// The clock after a write, or after the second that starts a month.
#[tactic(auto, unfolding(crate::specs::Deeds::clock_after))]
fn clock_after(clock: Clock, w: Writes) -> Clock
    ensures { result ≡ clock_after clock w }
{
    match w {
        Writes::ClockSet(c) | Writes::MonthClosed(c) => c,
        _ => clock,
    }
}

// The receiver after a deed.
fn receiver_after(r: Receiver, empties: bool) -> Receiver
    ensures { result ≡ cond empties empty_receiver r }
{
    if empties { empty_receiver() } else { r }
}

// What is answered and stored, where so much was said.
fn answer_with(s: Small, length: usize, d: Deed) -> Acted
    ensures { result ≡ answered s length d }
{
    // What is lent on stands in a local of its own: lent as a part of `s`, all of `s` would be copied.
    let held = s.receiver.held;
    let account = s.plain.account;
    Acted {
        number: d.number,
        length,
        speed: d.speed,
        place: d.place,
        mode: d.mode,
        attempts: d.attempts,
        rate: d.rate,
        receiver: receiver_after(s.receiver, d.empties),
        account: account_after(&held, account, d.writes),
        clock: clock_after(s.plain.clock, d.writes),
        writes: d.writes,
    }
}

// A deed that says no closed periods.
pub fn act_short(s: Small, rows: &[u8; ALL_ROWS], d: Deed, reply: &mut [u8]) -> Acted
    requires { (length s.plain.facts.serial ≡ 10) × RoomFor false d.says (length reply.old) }
    ensures result { result ≡ acted_with s (short_said (without_archive s.plain rows.now) d.says) d }
    ensures held { reply.new ≡ holding reply.old (on_wire (short_said (without_archive s.plain rows.now) d.says)) }
{
    let length = say(d.says, s.plain, rows, reply);
    answer_with(s, length, d)
}

// A deed that says the block with them, by value.
fn act_long(s: Small, rows: &[u8; ALL_ROWS], a: Archive, d: Deed, reply: &mut [u8]) -> Acted
    requires { (a.count ≤ period_places) × (reply_room ≤ length reply.old) }
    ensures result { result ≡ acted_with s (long_said (registers_of s.plain rows.now a)) d }
    ensures held { reply.new ≡ holding reply.old (on_wire (long_said (registers_of s.plain rows.now a))) }
{
    let tables = values::tables_of(s.plain.facts.edition);
    let length = replies::long_block(reply, s.plain, rows, a, tables);
    answer_with(s, length, d)
}

// The start of that block, where the periods are then put in from an archive that is lent.
pub fn start_long(s: Small, rows: &[u8; ALL_ROWS], reply: &mut [u8]) -> usize
    requires { reply_room ≤ length reply.old }
    ensures next { result ≡ length (long_begun (without_archive s.plain rows.now)) }
    ensures held { reply.new ≡ stored reply.old 0 (long_begun (without_archive s.plain rows.now)) }
{
    replies::long_start(
        reply,
        s.plain,
        rows,
        values::tables_of(s.plain.facts.edition),
    )
}

// Its end behind the periods, and what is answered and stored.
pub fn end_long(s: Small, at: usize, d: Deed, reply: &mut [u8]) -> Acted
    requires { (1 ≤ at) × (at + 5 ≤ length reply.old) }
    ensures result { result ≡ answered s (at + 5) d }
    ensures held { reply.new ≡ holding reply.old (on_wire (sealed (take at reply.old ++ chars "!\r\n"))) }
{
    let length = replies::long_end(reply, at);
    answer_with(s, length, d)
}

// The row that is written, put where it belongs.
pub fn put_row(rows: &mut [u8; ALL_ROWS], r: Receiver, w: Writes)
    requires { Writable w × (length r.held ≡ held_places) }
    ensures { rows.new ≡ tables_after r.held rows.old w }
{
    if let Writes::RowSet(t) = w {
        let held = r.held;
        text::put(
            rows,
            row_start(t),
            text::first(text::rest(&held, 9), values::ROW_LENGTH),
        );
    }
}

// Whether a period is closed.
#[tactic(auto, unfolding(crate::specs::Deeds::closes_after))]
pub fn closes(w: Writes) -> bool
    ensures { result ≡ closes_after w }
{
    matches!(w, Writes::Closed | Writes::MonthClosed(_))
}

// The tables after a deed.
fn rows_after(rows: [u8; ALL_ROWS], r: Receiver, w: Writes) -> [u8; ALL_ROWS]
    requires { Writable w × (length r.held ≡ held_places) }
    ensures { result ≡ tables_after r.held rows w }
{
    let mut next = rows;
    put_row(&mut next, r, w);
    next
}

// The archive after a deed.
fn archive_after(g: Registers, a: Acted) -> Archive
    requires { archive_good g.facts.decimals g.archive ≡ true }
    ensures { result ≡ archive_after g a }
{
    if closes(a.writes) {
        return state::closing::close_with(g.archive, a.clock, g.counters, g.exported);
    }
    g.archive
}

// The registers after a deed.
fn registers_after(m: Meter, a: Acted) -> Registers
    requires { (archive_good m.registers.facts.decimals m.registers.archive ≡ true) × (Writable a.writes × (length m.receiver.held ≡ held_places)) }
    ensures { result ≡ (stored_in m a).registers }
{
    let g = m.registers;
    let rows = rows_after(g.tables, m.receiver, a.writes);
    let next = with_archive(g, archive_after(g, a));
    with_tables(with_clock(with_account(next, a.account), a.clock), rows)
}

// The meter after a deed.
fn stored(m: Meter, a: Acted) -> Meter
    requires { (archive_good m.registers.facts.decimals m.registers.archive ≡ true) × (Writable a.writes × (length m.receiver.held ≡ held_places)) }
    ensures { result ≡ stored_in m a }
{
    let mut next = with_registers(m, registers_after(m, a));
    next.mode = a.mode;
    next.attempts = a.attempts;
    next.speed = a.rate;
    next.receiver = a.receiver;
    next
}

// What a deed says, put into the reply, and what is stored of the meter.
// Stays: as `perform`.
fn act(m: Meter, d: Deed, reply: &mut [u8]) -> Acted
    requires { (well_formed m ≡ true) × (reply_room ≤ length reply.old) }
    ensures result { result ≡ acted_with (small_of m) (said_by m.registers d) d }
    ensures held { reply.new ≡ holding reply.old (on_wire (said_by m.registers d)) }
{
    let rows = m.registers.tables;
    let s = small_of(m);
    if d.long {
        return act_long(s, &rows, m.registers.archive, d, reply);
    }
    act_short(s, &rows, d, reply)
}

// A deed done by a well-formed meter.
// Stays: `well_formed` is the fact's one name; a type of well-formed meters would copy the record of a kilobyte to be made.
pub fn perform(m: Meter, d: Deed, reply: &mut [u8]) -> Answer
    requires { ((well_formed m ≡ true) × Writable d.writes) × (reply_room ≤ length reply.old) }
    ensures result { result ≡ answer_of (done m d) }
    ensures held { reply.new ≡ holding reply.old (on_wire (said_by m.registers d)) }
{
    let a = act(m, d, reply);
    Answer {
        number: a.number,
        length: a.length,
        speed: a.speed,
        place: a.place,
        next: stored(m, a),
    }
}
