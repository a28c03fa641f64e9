// What a well-formed meter does at an event other than a character.
ghost use Rattle.std.specs.Prelude.{◌≡◌, true, ◌≤◌, length};
ghost use Rattle.text.specs.Writing.{holding};
ghost use Rattle.frames.specs.Frames.{on_wire};
ghost use Rattle.state.specs.Sizes.{reply_room};
ghost use Rattle.state.specs.WellFormed.{well_formed};
ghost use Rattle.meter.specs.Outcomes.{answer_of};
ghost use Rattle.meter.specs.Events.{after_silence, after_tick, after_pulse, after_power_up};

use crate::{Answer, acting, answers, deeds};
use state::Meter;
use state::setting::{in_mode, with_attempts, with_registers};

// Silence, with room for the reply.
pub fn silence(m: Meter, reply: &mut [u8]) -> Answer
    requires { (well_formed m ≡ true) × (reply_room ≤ length reply.old) }
    ensures result { result ≡ answer_of (after_silence m) }
    ensures held { reply.new ≡ holding reply.old (on_wire (after_silence m).reply) }
{
    let s = acting::small_of(m);
    let d = deeds::of_silence(deeds::standing_in(s));
    acting::perform(m, d, reply)
}

// The clock one second on, and a period closed where a month starts.
pub fn tick(m: Meter) -> Answer
    requires { well_formed m ≡ true }
    ensures { result ≡ answer_of (after_tick m) }
{
    answers::quiet(1, with_registers(m, tariff::second_later(m.registers)))
}

// A pulse, counted in its direction.
pub fn pulse(m: Meter, out: bool, units: u32) -> Answer
    requires { (well_formed m ≡ true) × (units ≤ 1000000) }
    ensures { result ≡ answer_of (after_pulse m out units) }
{
    if out {
        return answers::quiet(1, with_registers(m, tariff::count_out(m.registers, units)));
    }
    answers::quiet(1, with_registers(m, tariff::count_in(m.registers, units)))
}

// A session that starts anew.
pub fn power_up(m: Meter) -> Answer
    ensures { result ≡ answer_of (after_power_up m) }
{
    answers::quiet(1, with_attempts(in_mode(m, 0), 0))
}
