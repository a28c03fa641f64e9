// Most events have no reply and change little: a character the receiver, a second the clock, a pulse its counters; or they are refused. They are settled here
// from what they ask of the state, so that none of it is copied for them but that. On the others the meter acts, with its tables lent on where they lie.
#![tactic(auto)]

ghost use Rattle.std.specs.Prelude.{◌≡◌, ℕ, true, ◌≤◌, ◌<◌, List, length, IfErr, MatchResult};
ghost use Rattle.text.specs.Writing.{holding};
ghost use Rattle.frames.specs.Frames.{on_wire};
ghost use Rattle.state.specs.WellFormed.{well_formed, family_of};
ghost use Rattle.meter.specs.Life.{event_of, refusal};
ghost use Rattle.meter.specs.Deeds.{standing_in, left_deed, said_by};
ghost use Rattle.settling.specs.Settling.{number_of, refusal_by, kept_in, said, heard_or_left, told, seen_in, heard_as, heard_by, ticked_by, pulsed_by, pulse_of, heard_of, refuses, settles_by, settles, Countable, Passes};
ghost use Rattle.settling.specs.Acting.{deed_of, acted_by};

use clock::Clock;
use meter::{Acted, Deed, Event, Small, acting, deeds, events};
use receiving::{Hearing, Holding};
use replies::Plain;
use state::{ALL_ROWS, Counters, HELD_PLACES, Meter};
use values::family;

// What an event that is settled asks of a state, besides what the receiver holds and the tables: a state is too long to be handed on.
// Stays: mode, mark, edition and family are the numbers that C's record has.
#[derive(Clone, Copy)]
pub struct Seen {
    pub mode: u8,
    pub speed: u8,
    pub count: u8,
    pub mark: u8,
    pub place: u8,
    pub edition: u8,
    pub family: u8,
    pub clock: Clock,
    pub counters: Counters,
    pub exported: Counters,
}

// The receiver after an event: what becomes of the held characters, how many, and the mark with its place.
#[derive(Clone, Copy)]
pub struct Kept {
    pub holding: Holding,
    pub count: u8,
    pub mark: u8,
    pub place: u8,
}

// What a second or a pulse moves: the clock shows another time, or what came in or went out is counted.
#[derive(Clone, Copy)]
pub enum Moved {
    Second(Clock),
    CameIn(Counters),
    WentOut(Counters),
}

// All that a settled event does. The receiver stands apart from what is moved, though where one changes the other doesn't: with both in one enum, a character took longer.
#[derive(Clone, Copy)]
pub struct Settled {
    pub kept: Kept,
    pub moved: Option<Moved>,
}

// Why an event is refused with nothing changed: an edition that there is not, what refuses the event whatever the rest of the state, or a malformed state.
// Stays: the event's own refusal is the number that the contract of `meter::events::refusal_of` has.
#[derive(Clone, Copy, PartialEq, Eq)]
pub enum Refusal {
    NoEdition,
    Event(u8),
    Malformed,
}

impl Refusal {
    pub fn number(self) -> u8
        ensures { result ≡ number_of self }
    {
        match self {
            Refusal::NoEdition => 16,
            Refusal::Event(number) => number,
            Refusal::Malformed => 14,
        }
    }
}

// The energy that a pulse says: its direction and its units.
#[derive(Clone, Copy)]
pub struct Energy {
    pub out: bool,
    pub units: u32,
}

// The receiver as it is.
fn kept_in(s: Seen) -> Kept
    ensures { result ≡ kept_in s }
{
    Kept {
        holding: Holding::Same,
        count: s.count,
        mark: s.mark,
        place: s.place,
    }
}

// One more is held.
fn keep(s: Seen, c: u8, damaged: bool) -> Kept
    requires { s.count < 255 }
    ensures { said s (record { kept = result; moved = None }) ≡ heard_as s c damaged Hearing.Hold }
{
    Kept {
        holding: Holding::More(s.count, c),
        count: s.count + 1,
        mark: receiving::mark_after(s.mark, damaged),
        place: receiving::hurt_at(s.count, s.mark, s.place, damaged),
    }
}

// The first of a line or frame is held; or none, as c is 0.
fn anew(c: u8, count: u8) -> Kept
    ensures { result ≡ record { holding = Holding.Anew c; count = count; mark = 0; place = 0 } }
{
    Kept {
        holding: Holding::Anew(c),
        count,
        mark: 0,
        place: 0,
    }
}

// The receiver alone changes.
fn heard(kept: Kept) -> Option<Settled>
    ensures { result ≡ Some (record { kept = kept; moved = None }) }
{
    Some(Settled { kept, moved: None })
}

// A character, heard by a well-formed meter with room for any reply.
fn hear(s: Seen, held: &[u8; HELD_PLACES as usize], b: u8) -> Option<Settled>
    ensures { heard_or_left s result ≡ heard_by s held.now b }
{
    let damaged = line::damaged(b);
    let c = meter::symbol_of(b);
    let h = receiving::hear(s.mode, s.count, receiving::last_in(held, s.count), c);
    match h {
        Hearing::Drop => heard(kept_in(s)),
        Hearing::Hold => heard(keep(s, c, damaged)),
        Hearing::Restart => heard(anew(c, 1)),
        Hearing::Empty => heard(anew(0, 0)),
        Hearing::Line | Hearing::Confirm | Hearing::Frame | Hearing::TooLong => None,
    }
}

// A second; the meter has to act where a month starts.
fn tick(s: Seen) -> Option<Settled>
    ensures { heard_or_left s result ≡ ticked_by s }
{
    let next = clock::next_second(s.clock);
    if tariff::month_starts(next) {
        return None;
    }
    Some(Settled {
        kept: kept_in(s),
        moved: Some(Moved::Second(next)),
    })
}

// A pulse, counted in its direction.
fn pulse(s: Seen, tables: &[u8; ALL_ROWS], p: Energy) -> Moved
    requires { Countable s × (p.units ≤ 1000000) }
    ensures { said s (record { kept = kept_in s; moved = Some result }) ≡ pulsed_by s tables.now p.out p.units }
{
    let zone = tariff::zone_at(tables, s.edition, s.clock);
    if p.out {
        let end = family::export_end(s.family);
        return Moved::WentOut(tariff::count(s.exported, zone, p.units, end));
    }
    let end = family::counter_end(s.family);
    Moved::CameIn(tariff::count(s.counters, zone, p.units, end))
}

fn pulse_of(e: Event) -> Option<Energy>
    ensures { result ≡ pulse_of e }
{
    match e {
        Event::Pulse(units) => Some(Energy { out: false, units }),
        Event::PulseOut(units) => Some(Energy { out: true, units }),
        _ => None,
    }
}

// A character or a second, but no pulse; all else is left to the meter.
fn hear_or_leave(s: Seen, held: &[u8; HELD_PLACES as usize], e: Event) -> Option<Settled>
    requires { pulse_of e ≡ None }
    ensures { (tables : List ℕ) → heard_or_left s result ≡ heard_of s held.now tables e }
{
    match e {
        Event::Character(b) => hear(s, held, b),
        Event::Tick => tick(s),
        _ => None,
    }
}

// Whether an event passes, with so much room for a reply.
fn pass(s: Seen, formed: bool, e: Event, room: usize) -> Result<(), Refusal>
    ensures { MatchResult result (λ _. Passes s formed room e)
        (λ r. (r ≡ refusal_by s room e) × ((held tables : List ℕ) → settles_by s formed held tables room e ≡ refuses s (number_of r))) }
{
    if !values::is_edition(s.edition) {
        return Err(Refusal::NoEdition);
    }
    // Stays: 0 for none, as the contract of `meter::events::refusal_of` has it.
    let number = events::refusal_of(e, s.family, room);
    if number != 0 {
        return Err(Refusal::Event(number));
    }
    if formed {
        return Ok(());
    }
    Err(Refusal::Malformed)
}

// An event, told by a number and a value. A pulse goes its own way from the first test on: with one way for all events, each took longer.
fn settle<'a>(
    s: Seen,
    formed: bool,
    held: &'a [u8; HELD_PLACES as usize],
    tables: &'a [u8; ALL_ROWS],
    kind: u8,
    value: u32,
    room: usize,
) -> Result<Option<Settled>, Refusal>
    requires { formed ≡ true → Countable s }
    ensures settled { told s result ≡ settles_by s formed held.now tables.now room (event_of kind value) }
    ensures named { IfErr result (λ r. r ≡ refusal_by s room (event_of kind value)) }
{
    let e = events::event_of(kind, value);
    match pulse_of(e) {
        Some(p) => {
            pass(s, formed, e, room)?;
            Ok(Some(Settled {
                kept: kept_in(s),
                moved: Some(pulse(s, tables, p)),
            }))
        }
        None => {
            pass(s, formed, e, room)?;
            Ok(hear_or_leave(s, held, e))
        }
    }
}

// The same of a record that is lent.
pub fn look(m: &Meter, kind: u8, value: u32, room: usize) -> Result<Option<Settled>, Refusal>
    ensures settled { told (seen_in m.now) result ≡ settles m.now room (event_of kind value) }
    ensures named { IfErr result (λ r. r ≡ refusal_by (seen_in m.now) room (event_of kind value)) }
{
    let formed = lent::is_formed(m);
    let s = Seen {
        mode: m.mode,
        speed: m.speed,
        count: m.receiver.count,
        mark: m.receiver.mark,
        place: m.receiver.place,
        edition: m.registers.facts.edition,
        family: m.registers.facts.decimals,
        clock: m.registers.clock,
        counters: m.registers.counters,
        exported: m.registers.exported,
    };
    settle(
        s,
        formed,
        &m.receiver.held,
        &m.registers.tables,
        kind,
        value,
        room,
    )
}

// What an event that is not settled comes to.
fn deed_of(s: Small, kind: u8, value: u32) -> Deed
    requires { (s.attempts ≤ 3) × ((length s.plain.facts.serial ≡ 10) × (length s.plain.facts.password ≡ 8)) }
    ensures { result ≡ left_deed (standing_in s) s.receiver.held s.plain.clock (event_of kind value) }
{
    deeds::of_small(s, events::event_of(kind, value))
}

// An event that is not settled, by a record that is lent: its reply, and what is to be stored. Tables and archive are lent on.
pub fn act(m: &Meter, kind: u8, value: u32, reply: &mut [u8]) -> Acted
    requires { (well_formed m.now ≡ true) × (refusal (family_of m.now) (length reply.old) (event_of kind value) ≡ 0) }
    ensures { (result ≡ acted_by m.now (event_of kind value))
        × (reply.new ≡ holding reply.old (on_wire (said_by m.now.registers (deed_of m.now (event_of kind value))))) }
{
    let s = Small {
        mode: m.mode,
        attempts: m.attempts,
        speed: m.speed,
        receiver: m.receiver,
        plain: Plain {
            facts: m.registers.facts,
            account: m.registers.account,
            clock: m.registers.clock,
            counters: m.registers.counters,
            exported: m.registers.exported,
        },
    };
    let d = deed_of(s, kind, value);
    if d.long {
        let family = m.registers.facts.decimals;
        let at = acting::start_long(s, &m.registers.tables, reply);
        let end = replies::lent_periods(reply, at, &m.registers.archive, family);
        return acting::end_long(s, end, d, reply);
    }
    acting::act_short(s, &m.registers.tables, d, reply)
}
