// What passes without a reply: a second, a pulse, a power-up.
ghost use Rattle.std.specs.Prelude.{◌≡◌};
ghost use Rattle.state.specs.WellFormed.{family_of};
ghost use Rattle.meter.specs.Outcomes.{answer_of};
ghost use Rattle.meter.specs.Events.{tick, pulse_refused, pulse, power_up};

use crate::{Answer, Unheard, after, answers};
use state::Meter;

// One second has passed.
// Stays: it and `power_up` share the guard, and what is left of each is the call that differs.
pub fn pass_second(m: Meter) -> Answer
    ensures { result ≡ answer_of (tick m) }
{
    match crate::refused(&m, None) {
        None => after::tick(m),
        Some(why) => answers::unheard_with(why.number(), m),
    }
}

// The family that a meter is of.
pub fn family_of(m: Meter) -> u8
    ensures { result ≡ family_of m }
{
    m.registers.facts.decimals
}

// Whether meters of a family refuse a pulse.
pub fn refuses_pulse(family: u8, out: bool, units: u32) -> bool
    ensures { result ≡ pulse_refused family out units }
{
    (out & !values::family::is_eqm(family)) | (1_000_000 < units)
}

// A pulse of 0 to 1,000,000 units of the last place, in or out.
pub fn take_pulse(m: Meter, out: bool, units: u32) -> Answer
    ensures { result ≡ answer_of (pulse m out units) }
{
    let own = refuses_pulse(family_of(m), out, units).then_some(Unheard::BadPulse);
    match crate::refused(&m, own) {
        None => after::pulse(m, out, units),
        Some(why) => answers::unheard_with(why.number(), m),
    }
}

// Power has come back.
// Stays: as `pass_second`.
pub fn power_up(m: Meter) -> Answer
    ensures { result ≡ answer_of (power_up m) }
{
    match crate::refused(&m, None) {
        None => after::power_up(m),
        Some(why) => answers::unheard_with(why.number(), m),
    }
}
