// What can happen to a meter, as one call: told by a number and a value, tested, and taken.
ghost use Rattle.std.specs.Prelude.{◌≡◌, true, cond, length};
ghost use Rattle.text.specs.Writing.{holding};
ghost use Rattle.frames.specs.Frames.{on_wire};
ghost use Rattle.state.specs.WellFormed.{family_of, well_formed};
ghost use Rattle.meter.specs.Outcomes.{answer_of};
ghost use Rattle.meter.specs.Events.{pulse_refused};
ghost use Rattle.meter.specs.Life.{event_of, met, refusal, happened};

use crate::{Answer, Event, Unheard, after, answers, passing};
use state::Meter;

// A character of a number, if it is one.
#[tactic(auto, unfolding(crate::specs::Life::event_of))]
fn character_of(value: u32) -> Event
    ensures { result ≡ event_of 0 value }
{
    match u8::try_from(value) {
        Ok(b) => Event::Character(b),
        Err(_) => Event::Unknown,
    }
}

// The event of a number and a value.
// Stays: the C interface: an event comes as a kind and a value.
#[tactic(auto, unfolding(crate::specs::Life::event_of))]
pub fn event_of(kind: u8, value: u32) -> Event
    ensures { result ≡ event_of kind value }
{
    match kind {
        0 => character_of(value),
        1 => Event::Silence,
        2 => Event::Tick,
        3 => Event::Pulse(value),
        4 => Event::PowerUp,
        5 => Event::PulseOut(value),
        _ => Event::Unknown,
    }
}

// Stays: 0 or the number, as `refusal_of` has it.
fn room_refusal(room: usize) -> u8
    ensures { result ≡ refusal 0 room Event.Silence }
{
    if room < state::REPLY_ROOM { 12 } else { 0 }
}

fn pulse_refusal(family: u8, out: bool, units: u32) -> u8
    ensures { result ≡ cond (pulse_refused family out units) 13 0 }
{
    if passing::refuses_pulse(family, out, units) {
        13
    } else {
        0
    }
}

// The number that refuses an event of a family's meters whatever the rest of the state, or 0.
// Stays: `settling` hands the number on to C as it is, and the theorem `met-in-order` speaks of it so.
#[tactic(auto, unfolding(crate::specs::Life::refusal))]
pub fn refusal_of(e: Event, family: u8, room: usize) -> u8
    ensures { result ≡ refusal family room e }
{
    match e {
        Event::Character(_) | Event::Silence => room_refusal(room),
        Event::Tick | Event::PowerUp => 0,
        Event::Pulse(units) => pulse_refusal(family, false, units),
        Event::PulseOut(units) => pulse_refusal(family, true, units),
        Event::Unknown => 99,
    }
}

// An event that nothing refuses, taken by a well-formed meter.
fn take_event(m: Meter, e: Event, reply: &mut [u8]) -> Answer
    requires { (well_formed m ≡ true) × (refusal (family_of m) (length reply.old) e ≡ 0) }
    ensures result { result ≡ answer_of (happened m e) }
    ensures held { reply.new ≡ holding reply.old (on_wire (happened m e).reply) }
{
    match e {
        Event::Character(b) => crate::take(m, b, reply),
        Event::Silence => after::silence(m, reply),
        Event::Tick => after::tick(m),
        Event::Pulse(units) => after::pulse(m, false, units),
        Event::PowerUp => after::power_up(m),
        Event::PulseOut(units) => after::pulse(m, true, units),
        // Stays: 99 is what refused it: no call comes here.
        Event::Unknown => answers::unheard_with(99, m),
    }
}

// The same of the event that a number and a value tell.
pub fn act(m: Meter, kind: u8, value: u32, reply: &mut [u8]) -> Answer
    requires { (well_formed m ≡ true) × (refusal (family_of m) (length reply.old) (event_of kind value) ≡ 0) }
    ensures result { result ≡ answer_of (happened m (event_of kind value)) }
    ensures held { reply.new ≡ holding reply.old (on_wire (happened m (event_of kind value)).reply) }
{
    take_event(m, event_of(kind, value), reply)
}

// No event: 99, and nothing changed.
fn unknown(m: Meter) -> Answer
    ensures { result ≡ answer_of (met m 0 Event.Unknown) }
{
    if !state::has_edition(m) {
        return answers::unheard_with(Unheard::NoEdition.number(), m);
    }
    answers::unheard_with(Unheard::NoEvent.number(), m)
}

// Any event, met by any meter with any buffer.
pub fn meet(m: Meter, e: Event, reply: &mut [u8]) -> Answer
    ensures result { result ≡ answer_of (met m (length reply.old) e) }
    ensures held { reply.new ≡ holding reply.old (on_wire (met m (length reply.old) e).reply) }
{
    match e {
        Event::Character(b) => crate::receive(m, b, reply),
        Event::Silence => crate::hear_nothing(m, reply),
        Event::Tick => passing::pass_second(m),
        Event::Pulse(units) => passing::take_pulse(m, false, units),
        Event::PowerUp => passing::power_up(m),
        Event::PulseOut(units) => passing::take_pulse(m, true, units),
        Event::Unknown => unknown(m),
    }
}
