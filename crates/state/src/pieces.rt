// A state tested by its pieces. What is small is handed over, and the runs of characters are lent, so that nothing long is copied to be tested.
ghost use Rattle.std.specs.Prelude.{◌≡◌};
ghost use Rattle.state.specs.WellFormed.{receiver_good};
ghost use Rattle.state.specs.Pieces.{small_good, receiver_of, runs_good};

use crate::{ALL_ROWS, Counters, Facts, HELD_PLACES};
use clock::Clock;

// Mode, attempts and speed; what the meter was made from; its counters. The first test that fails ends it: a small processor has no registers to keep the answers of all.
// Stays: the fields of C's record, handed on so that none of what is long is copied.
pub fn small_good(
    mode: u8,
    attempts: u8,
    speed: u8,
    facts: Facts,
    account: [u8; 10],
    clock: Clock,
    counters: Counters,
    exported: Counters,
) -> bool
    ensures { result ≡ small_good mode attempts speed facts account clock counters exported }
{
    if ((mode <= 4) & (attempts <= 3)) & crate::speed_good(facts.link, mode, speed) {
        if crate::factory_good(facts, &account, clock) {
            return crate::directions_good(counters, exported, facts.decimals);
        }
    }
    false
}

// Whether a receiver with these fields is well-formed in a mode.
// Stays: the fields of C's record, lent apart so that none of it is copied.
fn receiver_good(
    mode: u8,
    count: u8,
    held: &[u8; HELD_PLACES as usize],
    mark: u8,
    place: u8,
) -> bool
    ensures { result ≡ receiver_good mode (receiver_of count held.now mark place) }
{
    if count <= crate::limit_of(mode) {
        if crate::first_good(mode, count, held[0]) {
            let marked = (mark <= 1) & (!(count == 0) | (mark == 0));
            if marked & crate::hurt_good(count, mark, place) {
                return crate::held_good(held, count);
            }
        }
    }
    false
}

// The receiver's characters, and those of the tables of an edition.
// Stays: a public function keeps its parameters.
pub fn runs_good<'a>(
    mode: u8,
    count: u8,
    held: &'a [u8; HELD_PLACES as usize],
    mark: u8,
    place: u8,
    edition: u8,
    tables: &'a [u8; ALL_ROWS],
) -> bool
    ensures { result ≡ runs_good mode (receiver_of count held.now mark place) edition tables.now }
{
    receiver_good(mode, count, held, mark, place)
        & crate::tables_good(tables, values::tables_of(edition))
}
