// All that the exporter writes, made in a lent buffer: the frames of a post; for any other text `20`, a space, the place and LF.
#![tactic(auto)]

ghost use Rattle.std.specs.Prelude.{◌≡◌, ◌≤◌, length, take, MatchResult};
ghost use Rattle.numerals.specs.Numerals.{begins_with};
ghost use Rattle.export.specs.Refusals.{answer_number, refusal_number, refusal_place};
ghost use Rattle.exporting.specs.Shown.{ShownFor};

use export::Refusal;
use numerals::Shown;

// Room for the frames of any post, of 25 tables.
pub const ROOM: usize = 900;

// For an edition; of one that there is not, `16`, a space, 0 and LF.
pub fn show(edition: u8, text: &[u8], out: &mut [u8]) -> Shown<Refusal>
    requires { 900 ≤ length out.old }
    ensures shown_for { ShownFor edition text.now out.old (answer_number result.outcome) result.length out.new }
    ensures why { MatchResult result.outcome (λ done. Unit {0}) (λ refusal. begins_with (refusal_number refusal) (refusal_place refusal) out.new) }
    ensures within { (result.length ≤ length out.new) × (result.length ≡ length (take result.length out.new)) }
{
    match export::export(edition, text, out) {
        Ok(length) => Shown {
            outcome: Ok(()),
            length,
        },
        Err(refusal) => {
            let length = numerals::put_line(
                out,
                0,
                refusal.number() as u64,
                refusal.place() as u64,
            );
            Shown {
                outcome: Err(refusal),
                length,
            }
        }
    }
}
