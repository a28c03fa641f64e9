// The reader: it keeps its place in the lent data and yields the data sets one by one.
// The functions over a struct that holds a slice only pass values on.
#![tactic(auto)]

ghost use Rattle.std.specs.Prelude.{◌≡◌};
ghost use Rattle.reading.specs.Sets.{set_told, set_read};
ghost use Rattle.reader.specs.Walking.{at_start, yields, moved, reached_told, set_after};

use reading::{Extent, Malformed};

#[derive(Clone, Copy)]
pub struct Reader<'a> {
    pub data: &'a [u8],
    pub at: usize,
}

impl<'a> Reader<'a> {
    // At the start of the data.
    pub fn new(data: &'a [u8]) -> Reader<'a>
        ensures { result ≡ at_start «data».entry }
    {
        Reader { data, at: 0 }
    }

    // The set at the reader's place, which moves past it; an end or a malformed set leaves it.
    pub fn next(&mut self) -> Result<Option<Extent>, Malformed>
        ensures { (set_told self.old.at result ≡ yields self.old) × (self.new ≡ moved self.old) }
    {
        let Some(set) = reading::next_set(self.data, self.at)? else {
            return Ok(None);
        };
        self.at = set.next;
        Ok(Some(set))
    }
}

// The set at a place of the data, by a reader that stands there.
pub fn read_at(data: &[u8], at: usize) -> Result<Option<Extent>, Malformed>
    ensures { set_told at result ≡ set_read «data».now at }
{
    let mut reader = Reader { data, at };
    reader.next()
}

// An answer, and the place that it was read at: its address starts there, its value after the address and '('.
#[derive(Clone, Copy)]
pub struct Reached {
    pub start: usize,
    pub set: Result<Option<Extent>, Malformed>,
}

// What a reader answers after so many sets; an end or a malformed set before it is the answer.
pub fn set_after(data: &[u8], n: usize) -> Reached
    ensures { reached_told result ≡ set_after «data».now n }
{
    let mut at = 0;
    for _read in 0..n {
        match read_at(data, at) {
            Ok(Some(set)) => at = set.next,
            Ok(None) => {
                return Reached {
                    start: at,
                    set: Ok(None),
                };
            }
            Err(malformed) => {
                return Reached {
                    start: at,
                    set: Err(malformed),
                };
            }
        }
    }
    Reached {
        start: at,
        set: read_at(data, at),
    }
}
