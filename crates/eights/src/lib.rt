// Eight characters as one number: a form tested on all of them at once, the numbers of two digits in it, parity and BCC.
#![tactic(auto)]

ghost use Rattle.std.specs.Prelude.{◌≡◌, ◌+◌, ◌-◌, ◌*◌, ◌^◌, ◌<◌, ◌≤◌, true, [], ◌∷◌, map, length, take, drop};
ghost use Rattle.line.specs.Runs.{every};
ghost use Rattle.line.specs.Characters.{sent};
ghost use Rattle.line.specs.Checksum.{bcc_of};
ghost use Rattle.eights.specs.Lanes.{is_byte, lanes, keeps, paired, evened, unlaned};

// The eight characters from a place on; and all of the text are bytes, which those who take the number apart need.
// Stays: a public function keeps its parameters; the place is the caller's.
pub fn eight(s: &[u8], at: usize) -> u64
    requires { at + 8 ≤ length s.now }
    ensures { (result ≡ lanes (take 8 (drop at s.now))) × (every is_byte s.now ≡ true) }
{
    u64::from_le_bytes([
        s[at],
        s[at + 1],
        s[at + 2],
        s[at + 3],
        s[at + 4],
        s[at + 5],
        s[at + 6],
        s[at + 7],
    ])
}

// Whether all eight lanes have these bits, as they are and raised.
pub fn keeps_form(w: u64, low: u64, bits: u64, raise: u64) -> bool
    ensures { result ≡ keeps low bits raise w }
{
    (w & bits == low) & (w.wrapping_add(raise) & bits == low)
}

// What eight digits are above '0', each with the next as a number of two digits.
pub fn pairs(w: u64, low: u64) -> u64
    requires { (low ≤ w) × ((w - low) * 11 < 2 ^ 64) }
    ensures { result ≡ paired (w - low) }
{
    let d = w - low;
    d * 10 + d / 256
}

// Parity on eight lanes of seven bits.
fn even(m: u64) -> u64
    requires { m ≤ 0x7F7F7F7F7F7F7F7F }
    ensures { result ≡ evened m }
{
    let four = m ^ m / 16;
    let two = four ^ four / 4;
    ((two ^ two / 2) & 0x0101_0101_0101_0101) * 128 + m
}

// The lanes of a number: of all eight in a row the compiler makes one store.
pub fn apart(w: u64) -> [u8; 8]
    ensures { result ≡ unlaned 8 w }
{
    w.to_le_bytes()
}

// The eight characters from a place on, as they are sent.
pub fn sent_eight(s: &[u8], at: usize) -> [u8; 8]
    requires { at + 8 ≤ length s.now }
    ensures { result ≡ map sent (take 8 (drop at s.now)) }
{
    let w = eight(s, at);
    apart(even(w & 0x7F7F_7F7F_7F7F_7F7F))
}

// Their BCC: one half upon the other, three times.
pub fn bcc_eight(s: &[u8], at: usize) -> u8
    requires { at + 8 ≤ length s.now }
    ensures { result ≡ bcc_of (take 8 (drop at s.now)) }
{
    let w = eight(s, at);
    let four = w % 0x1_0000_0000 ^ w / 0x1_0000_0000;
    let two = four % 0x1_0000 ^ four / 0x1_0000;
    ((two % 0x100 ^ two / 0x100) % 128) as u8
}
