// A meter's reply: its parity stripped, and the part of a block that holds the data.
#![tactic(auto)]

ghost use Rattle.std.specs.Prelude.{◌≡◌, map, ◌+◌, ◌≤◌, length, take, drop, IfOk};
ghost use Rattle.line.specs.Characters.{seven};
ghost use Rattle.line.specs.Checksum.{bcc_of};
ghost use Rattle.line.specs.Runs.{every};
ghost use Rattle.text.specs.Writing.{holding};
ghost use Rattle.blocks.specs.Refusals.{number_of, place_of};
ghost use Rattle.blocks.specs.Stripping.{strip_told, Strips};
ghost use Rattle.blocks.specs.Parts.{part_told, check_told, part_of, Within, is_content};

// Why a reply gives no part.
#[derive(Clone, Copy, PartialEq, Eq)]
pub enum Refusal {
    NoBlock,
    WrongBcc,
    // The first damaged byte stands there.
    Damaged(usize),
    // The buffer to strip into is shorter than the reply.
    Short,
}

impl Refusal {
    // Its number of document 01.
    pub fn number(self) -> u8
        ensures { result ≡ number_of self }
    {
        match self {
            Refusal::NoBlock => 22,
            Refusal::WrongBcc => 23,
            Refusal::Damaged(_) => 24,
            Refusal::Short => 26,
        }
    }

    // The place that goes with the number: that of the damaged byte, else 0.
    pub fn place(self) -> usize
        ensures { result ≡ place_of self }
    {
        match self {
            Refusal::Damaged(place) => place,
            _ => 0,
        }
    }
}

// Copies the seven bits of each byte to the front of a buffer.
fn copy_seven(s: &[u8], out: &mut [u8])
    requires { length s.now ≤ length out.old }
    ensures { out.new ≡ holding out.old (map seven s.now) }
{
    for (i, b) in s.iter().enumerate() {
        out[i] = line::character(*b);
    }
}

// Strips a reply's parity into a second buffer and gives its length, or writes nothing. The place is looked for only where a byte was damaged.
pub fn strip(reply: &[u8], out: &mut [u8]) -> Result<usize, Refusal>
    ensures { Strips reply.now out.old (strip_told result) out.new }
{
    if out.len() < reply.len() {
        return Err(Refusal::Short);
    }
    if !line::undamaged(reply) {
        return Err(Refusal::Damaged(damage::first_damaged(reply)));
    }
    copy_seven(reply, out);
    Ok(reply.len())
}

// What one pass over a block's content finds.
#[derive(Clone, Copy)]
pub struct Seen {
    pub plain: bool,
    pub sum: u8,
}

// Whether every byte is a character other than ETX, and the BCC of all; both in one pass. The largest byte tells for all whether they are characters.
fn look(s: &[u8]) -> Seen
    ensures { result ≡ record { plain = every is_content s.now; sum = bcc_of s.now } }
{
    let mut most: u8 = 0;
    let mut clear = true;
    let mut sum: u8 = 0;
    for c in s {
        most = most.max(*c);
        clear &= *c != line::ETX;
        sum ^= c;
    }
    Seen {
        plain: (most <= 127) & clear,
        sum: line::character(sum),
    }
}

// The data between STX and ETX of a stripped block, a part of the caller's own bytes.
pub fn find(s: &[u8]) -> Result<&[u8], Refusal>
    ensures within { Within s.now (part_told result) }
    ensures lies { IfOk result (λ part. part.ref_ptr ≡ (s.entry.ref_ptr.0, 1 + s.entry.ref_ptr.1)) }
    ensures value { IfOk result (λ part. part.now ≡ take (part_of s.now).length (drop (part_of s.now).start s.now)) }
{
    if s.len() < 3 {
        return Err(Refusal::NoBlock);
    }
    let etx = s.len() - 2;
    let last = s.len() - 1;
    let framed = (s[0] == line::STX) & (s[etx] == line::ETX);
    let seen = look(&s[1..etx]);
    let block = framed & (seen.plain & (s[last] <= 127));
    if !block {
        return Err(Refusal::NoBlock);
    }
    if s[last] != seen.sum ^ line::ETX {
        return Err(Refusal::WrongBcc);
    }
    Ok(&s[1..etx])
}

// Whether a block has a part, and why not.
pub fn part_check(stripped: &[u8]) -> Result<(), Refusal>
    ensures { check_told result ≡ (part_of stripped.now).number }
{
    find(stripped)?;
    Ok(())
}

// The same part where the block has one, and where it is refused the empty part at its start.
// Stays: `part` of docs/CONTRACTS.md could not fail; `find`, which can, stands beside it.
pub fn part(stripped: &[u8]) -> &[u8]
    ensures lies { result.ref_ptr ≡ (stripped.entry.ref_ptr.0, (part_of stripped.now).start + stripped.entry.ref_ptr.1) }
    ensures result_value { result.now ≡ take (part_of stripped.now).length (drop (part_of stripped.now).start stripped.now) }
{
    match find(stripped) {
        Ok(part) => part,
        Err(_) => &stripped[..0],
    }
}
