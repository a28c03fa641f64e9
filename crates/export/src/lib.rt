// The export of a post: one frame a line, which sets the line's table.
#![tactic(auto)]

ghost use Rattle.std.specs.Prelude.{◌≡◌, ◌+◌, ◌*◌, ◌<◌, ◌≤◌, length, take, drop};
ghost use Rattle.text.specs.Writing.{stored};
ghost use Rattle.export.specs.Frames.{ExportedAs, ExportedFor};
ghost use Rattle.export.specs.Changed.{change, changed_line, changed_lines};
ghost use Rattle.export.specs.Refusals.{from_post, refusal_number, refusal_place, answer_number, answer_length, answer_place};

// The line of a table, and the frame that sets it, with LF in the place of the BCC: in which bits a column of the one differs from the other's.
const LINE: [u8; 36] = *b"131.0.00(111111111111111111111111)\r\n";

const FRAME: [u8; 36] = *b"\x01W1\x02Z(00;111111111111111111111111)\x03\n";

// Why there are no frames: the text is no post, and leaves every post at this place; the buffer is too short; there is no such edition.
#[derive(Clone, Copy, Debug, PartialEq, Eq)]
pub enum Refusal {
    NoPost(usize),
    NoRoom,
    NoEdition,
}

impl Refusal {
    // Document 01's number: 20, 21 or 16.
    pub fn number(self) -> u8
        ensures { result ≡ refusal_number self }
    {
        match self {
            Refusal::NoPost(_) => 20,
            Refusal::NoRoom => 21,
            Refusal::NoEdition => 16,
        }
    }

    // The place that document 01 gives with it: 0 but for a text that is no post.
    pub fn place(self) -> usize
        ensures { result ≡ refusal_place self }
    {
        match self {
            Refusal::NoPost(place) => place,
            Refusal::NoRoom | Refusal::NoEdition => 0,
        }
    }
}

impl From<post::Refusal> for Refusal {
    ghost from_gives = { λ p r. r ≡ from_post p };

    fn from(refusal: post::Refusal) -> Refusal {
        match refusal {
            post::Refusal::NoPost(place) => Refusal::NoPost(place),
            post::Refusal::NoEdition => Refusal::NoEdition,
        }
    }
}

// The line at a place, copied: an array of its own is apart from the buffer, so that it is read once for all that is made of it.
fn line_at(text: &[u8], at: usize) -> [u8; 36]
    requires { at + 36 ≤ length text.now }
    ensures { result ≡ take 36 (drop at text.now) }
{
    <[u8; 36]>::try_from(&text[at..at + 36]).unwrap()
}

// What a line is changed by, column by column.
fn differences() -> [u8; 36]
    ensures { result ≡ change }
{
    let line = LINE;
    let frame = FRAME;
    let mut changes = [0u8; 36];
    for i in 0..36 {
        changes[i] = line[i] ^ frame[i];
    }
    changes
}

// Writes the frame of the line at a place to the same place of the buffer. What changes is lent, so that it is at hand for each line.
fn write_frame(changes: &[u8; 36], text: &[u8], at: usize, out: &mut [u8])
    requires { (changes.now ≡ change) × (at + 36 ≤ length text.now) × (at + 36 ≤ length out.old) }
    ensures { out.new ≡ stored out.old at (changed_line (drop at text.now)) }
{
    let copy = line_at(text, at);
    for j in 0..36 {
        out[at + j] = line::wire(copy[j] ^ changes[j]);
    }
    // The BCC of the line up to the row's end; 44 is what the fixed parts of line and frame differ in.
    let sum = line::bcc(&copy[..33]);
    out[at + 35] = line::wire(sum ^ 44);
}

// Writes the frames of so many lines.
fn write_frames(text: &[u8], lines: usize, out: &mut [u8])
    requires { (36 * lines ≤ length text.now) × (36 * lines ≤ length out.old) }
    ensures { out.new ≡ stored out.old 0 (changed_lines text.now lines) }
{
    let changes = differences();
    for i in 0..lines {
        write_frame(&changes, text, 36 * i, out);
    }
}

// The export, for so many tables: how long the frames are.
pub fn export_of(text: &[u8], out: &mut [u8], tables: u8) -> Result<usize, Refusal>
    requires { (0 < tables) × (tables < 100) }
    ensures { ExportedAs tables text.now out.old (answer_number result) (answer_length result) (answer_place result) out.new }
{
    post::check_of(text, tables)?;
    let lines = text.len() / 36;
    if out.len() < 36 * lines {
        return Err(Refusal::NoRoom);
    }
    write_frames(text, lines, out);
    Ok(36 * lines)
}

// The export: the frames of a post for an edition, or why there are none; a refusal leaves the buffer as it was.
pub fn export(edition: u8, text: &[u8], out: &mut [u8]) -> Result<usize, Refusal>
    ensures { ExportedFor edition text.now out.old (answer_number result) (answer_length result) (answer_place result) out.new }
{
    if !values::is_edition(edition) {
        return Err(Refusal::NoEdition);
    }
    export_of(text, out, values::tables_of(edition))
}
