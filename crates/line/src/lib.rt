// Characters and checksum: what a wire byte carries, and the BCC over many.
// Everything above cites these promises and never looks inside.
#![tactic(auto)]

ghost use Rattle.std.specs.Prelude.{◌≡◌, map, length, take, drop};
ghost use Rattle.line.specs.Characters.{damaged_at, seven, sent, undamaged_all};
ghost use Rattle.line.specs.Balance.{balance_of};
ghost use Rattle.line.specs.Checksum.{bcc_of};

pub const SOH: u8 = 0x01;

pub const STX: u8 = 0x02;

pub const ETX: u8 = 0x03;

pub const ACK: u8 = 0x06;

pub const LF: u8 = 0x0A;

pub const CR: u8 = 0x0D;

pub const NAK: u8 = 0x15;

// Whether a wire byte is damaged: folded upon itself down to one bit, it leaves a one.
pub fn damaged(b: u8) -> bool
    ensures { result ≡ damaged_at b }
{
    let four = b ^ b / 16;
    let two = four ^ four / 4;
    (two ^ two / 2) % 2 != 0
}

// The seven data bits of a wire byte.
pub fn character(b: u8) -> u8
    ensures { result ≡ seven b }
{
    b % 128
}

// A byte whose top bit evens the seven data bits of `b`. A product has that bit, which the proof tries of all 256 bytes: over a run it is
// faster than to fold each, where a processor does many at once.
fn balance(b: u8) -> u8
    ensures { result ≡ balance_of b }
{
    ((b as u16 * (b ^ 0x66) as u16 + 0x30) % 256) as u8
}

// The wire byte of a character.
pub fn wire(c: u8) -> u8
    ensures { result ≡ sent c }
{
    c % 128 + balance(c) / 128 * 128
}

// The BCC of a run of bytes: the exclusive-or of their seven bits.
pub fn bcc(s: &[u8]) -> u8
    ensures { result ≡ bcc_of s.now }
{
    let mut sum: u8 = 0;
    for b in s {
        sum ^= *b;
    }
    sum % 128
}

// Whether no byte of a run is damaged. Differences are gathered by their bits, of which the top one tells; the loop has one way out.
pub fn undamaged(s: &[u8]) -> bool
    ensures { result ≡ undamaged_all s.now }
{
    let mut strays: u8 = 0;
    for at in 0..s.len() {
        strays |= balance(s[at]) ^ s[at];
    }
    strays / 128 == 0
}

// Puts the parity bit on every byte of a run.
pub fn put_parity(s: &mut [u8])
    ensures { s.new ≡ map sent s.old }
{
    for b in s {
        *b = wire(*b);
    }
}
