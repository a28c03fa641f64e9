// The CRC of the Modbus serial line, without a table, and the test of a message that ends with it.
#![tactic(auto)]

ghost use Rattle.std.specs.Prelude.{◌≡◌, ◌+◌, ◌*◌};
ghost use Rattle.crc.specs.Crc.{joined, crc_of, checks};
ghost use Rattle.crc.specs.Splitting.{BARE, evened};

// The polynomial has the factor x + 1, so that one bit of the CRC is a parity. It is left out of the register while the bytes go in, which
// are summed beside it: a byte then needs no more than shifts, and parity is worked out once, at the end.
fn join(c: u16, b: u8) -> u16
    ensures { result ≡ joined BARE c b }
{
    let low = (c ^ b as u16) % 256;
    c / 256 ^ (low ^ low * 2) * 64
}

// The register with the bit that was left out, by the exclusive-or of all bytes.
fn even(c: u16, sum: u8) -> u16
    ensures { result ≡ evened c sum }
{
    let [low, high] = c.to_le_bytes();
    if line::damaged(sum ^ low ^ high) {
        return c ^ 0xC001;
    }
    c
}

// The CRC of a message of any length.
pub fn crc(s: &[u8]) -> u16
    ensures { result ≡ crc_of s.now }
{
    let mut c: u16 = 0xFFFF;
    let mut sum: u8 = 0;
    for b in s {
        c = join(c, *b);
        sum ^= *b;
    }
    even(c, sum)
}

// Whether the last two bytes of a message are the CRC of what stands before them, low byte first.
pub fn check(s: &[u8]) -> bool
    ensures { result ≡ checks s.now }
{
    let Some((message, last)) = s.split_last_chunk::<2>() else {
        return false;
    };
    u16::from_le_bytes(*last) == crc(message)
}
