// The numbers that two digits say.
ghost use Rattle.std.specs.Prelude.{◌≡◌, ◌+◌, ◌-◌, ◌<◌, ◌≤◌, length};
ghost use Rattle.values.specs.Numbers.{ThreeAt, three_in};
ghost use Rattle.line.specs.Quoted.{char};
ghost use Rattle.text.specs.Decimal.{number_at};

// What a digit stands for; a character below '0' stands for nothing.
fn digit(c: u8) -> u32
    ensures value { result ≡ c - char "0" }
    ensures small { result < 256 }
{
    u32::from(c.saturating_sub(b'0'))
}

// The number in the two digits at a place.
pub fn two(s: &[u8], at: usize) -> u16
    requires { at + 2 ≤ length s.now }
    ensures { result ≡ number_at s.now at 2 }
{
    let next = at + 1;
    (digit(s[at]) * 10 + digit(s[next])) as u16
}

// Three numbers of two digits, each with a character between it and the next.
#[derive(Clone, Copy)]
pub struct Three {
    pub first: u8,
    pub second: u8,
    pub third: u8,
}

pub fn three_at(s: &[u8], at: usize) -> Three
    requires { ThreeAt s.now at }
    ensures { result ≡ three_in s.now at }
{
    let a = two(s, at);
    let b = two(s, at + 3);
    let c = two(s, at + 6);
    Three {
        first: a as u8,
        second: b as u8,
        third: c as u8,
    }
}
