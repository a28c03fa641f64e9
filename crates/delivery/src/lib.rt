// The delivery of a post: its export, fed byte by byte to a meter.
#![tactic(auto)]

ghost use Rattle.std.specs.Prelude.{◌≡◌, ◌+◌, ◌<◌};
ghost use Rattle.state.specs.Sizes.{reply_room};
ghost use Rattle.meter.specs.Outcomes.{answer_of};
ghost use Rattle.meter.specs.Character.{character};
ghost use Rattle.export.specs.Refusals.{answer_number, answer_place};
ghost use Rattle.dialogue.specs.Feeding.{answered, left, full};
ghost use Rattle.delivery.specs.Acknowledged.{is_done, acknowledgements};
ghost use Rattle.delivery.specs.Delivery.{DeliveredAs};
ghost use Rattle.delivery.specs.Outcome.{acknowledged_in, left_in};

use export::Refusal;
use meter::Answer;
use state::{Meter, REPLY_ROOM};

// How many bytes were answered 1, and the state after them.
#[derive(Clone, Copy)]
pub struct Fed {
    pub acknowledged: usize,
    pub next: Meter,
}

// A byte, with a reply buffer of its own.
fn give(m: Meter, b: u8) -> Answer
    ensures { result ≡ answer_of (character m reply_room b) }
{
    let mut reply = [0u8; REPLY_ROOM];
    meter::receive(m, b, &mut reply)
}

// One byte more.
fn step(f: Fed, b: u8) -> Fed
    requires { f.acknowledged < 18446744073709551615 }
    ensures acknowledged { result.acknowledged ≡ f.acknowledged + is_done (character f.next reply_room b).number }
    ensures next { result.next ≡ (character f.next reply_room b).next }
{
    let answer = give(f.next, b);
    Fed {
        // Stays: `meter::Answer` has its number, see there.
        acknowledged: f.acknowledged + usize::from(answer.number == 1),
        next: answer.next,
    }
}

// Bytes, one after the other.
pub fn feed(m: Meter, bytes: &[u8]) -> Fed
    ensures acknowledged { result.acknowledged ≡ acknowledgements (answered m full bytes.now) }
    ensures next { result.next ≡ left m full bytes.now }
{
    let mut fed = Fed {
        acknowledged: 0,
        next: m,
    };
    for b in bytes {
        fed = step(fed, *b);
    }
    fed
}

// A text, exported for the meter's edition and fed to it; a refusal leaves the meter that the caller has.
pub fn deliver(m: Meter, text: &[u8]) -> Result<Fed, Refusal>
    ensures { DeliveredAs m text.now (answer_number result) (answer_place result) (acknowledged_in result) (left_in m result) }
{
    let tables = values::tables_of(m.registers.facts.edition);
    let mut out = [0u8; 900];
    let length = export::export_of(text, &mut out, tables)?;
    Ok(feed(m, &out[..length]))
}
