// A record that is lent, looked at where it lies: this function hands its parts on and does nothing else.
#![tactic(auto)]

ghost use Rattle.std.specs.Prelude.{◌≡◌};
ghost use Rattle.state.specs.WellFormed.{well_formed};

use state::{Meter, closing, pieces};

// Whether a record is well-formed.
// Stays: `state::is_well_formed` is the same by value; a test that both called would have two callers, and not be compiled into the one that a host uses.
pub fn is_formed(m: &Meter) -> bool
    ensures { result ≡ well_formed m.now }
{
    let kept = closing::lent_good(&m.registers.archive, m.registers.facts.decimals);
    let small = pieces::small_good(
        m.mode,
        m.attempts,
        m.speed,
        m.registers.facts,
        m.registers.account,
        m.registers.clock,
        m.registers.counters,
        m.registers.exported,
    );
    let runs = pieces::runs_good(
        m.mode,
        m.receiver.count,
        &m.receiver.held,
        m.receiver.mark,
        m.receiver.place,
        m.registers.facts.edition,
        &m.registers.tables,
    );
    small & (runs & kept)
}
