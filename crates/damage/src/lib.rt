// Where a run of bytes was damaged.
#![tactic(auto)]

ghost use Rattle.std.specs.Prelude.{◌≡◌};
ghost use Rattle.damage.specs.First.{first_damaged};

// The place of the first damaged byte; the length of the run where none is damaged.
pub fn first_damaged(s: &[u8]) -> usize
    ensures { result ≡ first_damaged s.now }
{
    // Stays: `position` hands an `Option` of a reference on, which code for chips and the page has none of (DECISIONS 143).
    for at in 0..s.len() {
        if line::damaged(s[at]) {
            return at;
        }
    }
    s.len()
}
