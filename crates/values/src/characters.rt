// Serial, account and row read back from their texts to the characters that made them; nothing where a text has not their form.
ghost use Rattle.std.specs.Prelude.{◌≡◌, true, ◌++◌, length, take, drop};
ghost use Rattle.text.specs.Layout.{pattern, fits};
ghost use Rattle.eights.specs.Lanes.{lanes};
ghost use Rattle.values.specs.Serials.{serial_form, serial_found, account_found, row_found, serial_read, account_read, row_read};

// What `### ####` and ` #######`, the first and the last eight, have in their lanes: the least characters, the bits that those of a lane share,
// and what a digit has to spare.
const FIRST: u64 = 0x3030_3030_2030_3030;

const FIRST_BITS: u64 = 0xF0F0_F0F0_FFF0_F0F0;

const FIRST_SPARE: u64 = 0x0606_0606_0006_0606;

const LAST: u64 = 0x3030_3030_3030_3020;

const LAST_BITS: u64 = 0xF0F0_F0F0_F0F0_F0FF;

const LAST_SPARE: u64 = 0x0606_0606_0606_0600;

// Whether a text is `nnn nnnnnnn`.
pub fn is_serial(s: &[u8]) -> bool
    ensures { result ≡ fits (pattern serial_form) s.now }
{
    if s.len() != 11 {
        return false;
    }
    let first = eights::keeps_form(eights::eight(s, 0), FIRST, FIRST_BITS, FIRST_SPARE);
    first & eights::keeps_form(eights::eight(s, 3), LAST, LAST_BITS, LAST_SPARE)
}

// The first eight digits as one number: those before the space and those after it, and '0' on all of them at once. So the compiler cannot
// tell one from the other and stores them together.
fn first_digits(s: &[u8]) -> u64
    requires { fits (pattern serial_form) s.now ≡ true }
    ensures { result ≡ lanes (take 8 (take 3 s.now ++ drop 4 s.now)) }
{
    let before = (eights::eight(s, 0) - FIRST) % 0x100_0000;
    let after = (eights::eight(s, 3) - LAST) / 0x100 % 0x100_0000_0000;
    (before + after * 0x100_0000) | crate::DIGITS
}

// The ten digits around the space.
pub fn digits_of(s: &[u8]) -> [u8; 10]
    requires { fits (pattern serial_form) s.now ≡ true }
    ensures { result ≡ take 3 s.now ++ drop 4 s.now }
{
    let d = eights::apart(first_digits(s));
    [d[0], d[1], d[2], d[3], d[4], d[5], d[6], d[7], s[9], s[10]]
}

// A serial from `nnn nnnnnnn`.
pub fn read_serial(s: &[u8]) -> Option<[u8; 10]>
    ensures { serial_found result ≡ serial_read s.now }
{
    if is_serial(s) {
        return Some(digits_of(s));
    }
    None
}

// A text of so many characters, copied.
// Stays: a public function keeps its parameters.
pub fn array_of<const N: usize>(s: &[u8]) -> [u8; N]
    requires { length s.now ≡ N }
    ensures { result ≡ s.now }
{
    <[u8; N]>::try_from(s).unwrap()
}

// An account, as it stands. The length is tested first, so that the test of the characters is compiled for it.
pub fn read_account(s: &[u8]) -> Option<[u8; 10]>
    ensures { account_found result ≡ account_read s.now }
{
    if s.len() != 10 {
        return None;
    }
    if crate::is_whole_account(s) {
        return Some(array_of(s));
    }
    None
}

// A table's row, as it stands.
pub fn read_row(s: &[u8]) -> Option<[u8; crate::ROW_LENGTH]>
    ensures { row_found result ≡ row_read s.now }
{
    if s.len() != crate::ROW_LENGTH {
        return None;
    }
    if crate::is_row(s) {
        return Some(array_of(s));
    }
    None
}
