// Answers of one kind each.
ghost use Rattle.std.specs.Prelude.{◌≡◌};
ghost use Rattle.meter.specs.Outcomes.{answer_of, silent, unheard};

use crate::Answer;
use state::Meter;

// No reply; the speed is the next state's.
pub fn quiet(number: u8, next: Meter) -> Answer
    ensures { result ≡ answer_of (silent number next) }
{
    Answer {
        number,
        length: 0,
        speed: next.speed,
        place: 0,
        next,
    }
}

// Nothing changed.
pub fn unheard_with(number: u8, m: Meter) -> Answer
    ensures { result ≡ answer_of (unheard number m) }
{
    Answer {
        number,
        length: 0,
        speed: 0,
        place: 0,
        next: m,
    }
}
