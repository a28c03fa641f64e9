// One register out of a long block: the first data set with an address, and nothing read behind it.
#![tactic(auto)]

ghost use Rattle.std.specs.Prelude.{◌≡◌};
ghost use Rattle.finding.specs.Finding.{find_told, lookup};

// The number of document 01 for sets that have ended, none of them with the address.
pub const MISSING: u8 = 27;

// The match: how many sets were read, it included, and where its address and its value stand.
#[derive(Clone, Copy)]
pub struct Match {
    pub count: usize,
    pub address_start: usize,
    pub address_length: usize,
    pub value_start: usize,
    pub value_length: usize,
}

// No match among so many good sets: a malformed one stands behind them, or the end.
#[derive(Clone, Copy)]
pub enum Missed {
    Malformed { count: usize, place: usize },
    Missing { count: usize },
}

// The first data set with an address: reads set by set, and stops at it.
pub fn find(data: &[u8], address: &[u8]) -> Result<Match, Missed>
    ensures { find_told result ≡ lookup «data».now address.now }
{
    let mut at = 0;
    let mut count = 0;
    // Stays: it goes from a set to the next, whose place the set itself says.
    loop {
        let set = match reading::next_set(data, at) {
            Ok(Some(set)) => set,
            Ok(None) => return Err(Missed::Missing { count }),
            Err(_) => return Err(Missed::Malformed { count, place: at }),
        };
        let read = count + 1;
        let bracket = at + set.address_length;
        if text::same(&data[at..bracket], address) {
            return Ok(Match {
                count: read,
                address_start: at,
                address_length: set.address_length,
                value_start: bracket + 1,
                value_length: set.value_length,
            });
        }
        at = set.next;
        count = read;
    }
}
