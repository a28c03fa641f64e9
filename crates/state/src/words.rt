// Four characters looked at as one number: a processor without vectors has a quarter of the work.
ghost use Rattle.std.specs.Prelude.{◌≡◌, ◌+◌, ◌%◌, ◌<◌, ◌&&◌, [], ◌∷◌, drop, if◌then◌else◌, ◌==◌};
ghost use Rattle.line.specs.Runs.{every};
ghost use Rattle.text.specs.Classes.{between, is_digit};
ghost use Rattle.state.specs.Fours.{four_of, ones, in_row, in_seven};

// The first is the lowest, so that the compiler makes one load of four neighbours.
// Stays: the law of four (`four_of`) is about this sum; the compiler makes one load of it as of `from_le_bytes`.
pub fn four(a: u8, b: u8, c: u8, d: u8) -> u32
    ensures { result ≡ four_of a b c d }
{
    a as u32 + b as u32 * 256 + c as u32 * 65_536 + d as u32 * 16_777_216
}

// How far four characters are above '1'. It wraps, from the lowest that is below.
pub fn above_one(four: u32) -> u32
    ensures { (result + ones) % 4294967296 ≡ four }
{
    four.wrapping_sub(0x3131_3131)
}

// Whether none of four is further above '1' than '4'.
pub fn is_in_row(bad: u32) -> bool
    ensures { result ≡ in_row bad }
{
    bad & 0xFCFC_FCFC == 0
}

// Four characters are digits where this has no eighth bit: how far they are above '0', which wraps from the lowest that is below, joined with that and what '9' lacks to 128.
pub fn beside_digits(a: u8, b: u8, c: u8, d: u8) -> u32
    ensures { in_seven result ≡ (is_digit a && (is_digit b && (is_digit c && is_digit d))) }
{
    let above = four(a, b, c, d).wrapping_sub(0x3030_3030);
    above | above.wrapping_add(0x7676_7676)
}

// Whether four have no eighth bit.
pub fn is_seven(all: u32) -> bool
    ensures { result ≡ in_seven all }
{
    all & 0x8080_8080 == 0
}

// Four, or nothing.
pub fn four_if(counts: bool, four: u32) -> u32
    ensures { result ≡ (if counts then four else 0) }
{
    if counts { four } else { 0 }
}

// Four without the first so many.
pub fn part(a: u8, b: u8, c: u8, d: u8, used: u8) -> u32
    requires { used < 4 }
    ensures { (result == 0) ≡ every (between 0 0) (drop used (a ∷ b ∷ c ∷ d ∷ [])) }
{
    four(a, b, c, d) >> (8 * used as u32)
}
