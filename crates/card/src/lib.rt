// Cards: whether a text is one, where it leaves every card, and the frames that bring it to a meter. All is said over the number of tables.
#![tactic(auto)]

ghost use Rattle.std.specs.Prelude.{◌≡◌, ℕ, Bool, ◌++◌, ◌+◌, ◌*◌, ◌<◌, ◌≤◌, length, drop};
ghost use Rattle.line.specs.Quoted.{chars};
ghost use Rattle.text.specs.Writing.{stored, holding};
ghost use Rattle.values.specs.Edition.{row_length};
ghost use Rattle.frames.specs.Frames.{sealed, frame_of, on_wire};
ghost use Rattle.frames.specs.Commands.{W1, set_table};
ghost use Rattle.card.specs.Place.{CheckedAs, CheckedFor};
ghost use Rattle.card.specs.Refusals.{refusal_number, refusal_place, answer_number, answer_length, answer_place};
ghost use Rattle.card.specs.Columns.{account_column, table_column, FirstStray, table_stands};
ghost use Rattle.card.specs.Fields.{Passed, Scanned};
ghost use Rattle.card.specs.Frames.{account_frame, field_frame, field_frames, text_frames, ReadAs, ReadFor};

use values::ROW_LENGTH;

// The account's field and a table's, and their frames, in bytes.
const ACCOUNT_FIELD: usize = 13;

const TABLE_FIELD: usize = 28;

const ACCOUNT_FRAME: usize = 19;

const TABLE_FRAME: usize = 36;

// Why a text is refused, or gives no frames: it is no card, and leaves every card at this place; the buffer is too short; there is no such edition.
#[derive(Clone, Copy, Debug, PartialEq, Eq)]
pub enum Refusal {
    NoCard(usize),
    NoRoom,
    NoEdition,
}

impl Refusal {
    // Document 01's number: 40, 41 or 16.
    pub fn number(self) -> u8
        ensures { result ≡ refusal_number self }
    {
        match self {
            Refusal::NoCard(_) => 40,
            Refusal::NoRoom => 41,
            Refusal::NoEdition => 16,
        }
    }

    // The place that document 01 gives with it: 0 but for a text that is no card.
    pub fn place(self) -> usize
        ensures { result ≡ refusal_place self }
    {
        match self {
            Refusal::NoCard(place) => place,
            Refusal::NoRoom | Refusal::NoEdition => 0,
        }
    }
}

// How far whole fields reach, and the number of the last table.
#[derive(Clone, Copy)]
pub struct Reached {
    pub at: usize,
    pub above: u8,
}

// Whether a column of the account's field may hold a byte.
#[tactic(auto, unfolding(crate::specs::Columns::account_column))]
fn account_column(j: usize, c: u8) -> bool
    ensures { result ≡ account_column j c }
{
    match j {
        0 => c == 1,
        1 => c == 0,
        2 => c == 10,
        _ => values::is_account_character(c),
    }
}

// Whether a column of a table's field may, below another number.
#[tactic(auto, unfolding(crate::specs::Columns::table_column, text::specs::Classes::between))]
fn table_column(j: usize, c: u8, above: u8, tables: u8) -> bool
    ensures { result ≡ table_column tables above j c }
{
    match j {
        0 => (c == 2) & (above < tables),
        1 => c == 0,
        2 => c == 25,
        3 => (above < c) & (c <= tables),
        _ => (b'1' <= c) & (c <= b'4'),
    }
}

// The first of so many columns that strays, by what each of them may hold.
fn first_stray<F: Fn(usize, u8) -> bool>(s: &[u8], width: usize, fits: F) -> usize
    requires { F.IsAlwaysCallable fits }
    ensures { (column : ℕ → ℕ → Bool) → ((j c : ℕ) (r : Bool) → F.post fits j c r → r ≡ column j c) → FirstStray column width s.now result }
{
    let part = text::first(s, width);
    for (j, c) in part.iter().enumerate() {
        if !fits(j, *c) {
            return j;
        }
    }
    part.len()
}

// Whether the field of a table that may follow stands at the front; all of it is seen at once.
fn table_stands(s: &[u8], above: u8, tables: u8) -> bool
    ensures { result ≡ table_stands tables above s.now }
{
    if s.len() < TABLE_FIELD {
        return false;
    }
    let head = ((s[0] == 2) & (s[1] == 0)) & (s[2] == 25);
    let follows = (above < s[3]) & (s[3] <= tables);
    head & (follows & text::all_between(&s[4..28], b'1', b'4'))
}

// Goes over the tables' fields that stand one behind the other with rising numbers.
fn scan(text: &[u8], tables: u8) -> Reached
    requires { Passed tables text.now 13 0 }
    ensures { Scanned tables text.now result.at result.above }
{
    let mut at = ACCOUNT_FIELD;
    let mut above = 0;
    // Stays: it goes on by fields, up to the first that does not stand, and their places are wanted.
    while table_stands(&text[at..], above, tables) {
        above = text[at + 3];
        at += TABLE_FIELD;
    }
    Reached { at, above }
}

// The check, for so many tables.
pub fn check_of(text: &[u8], tables: u8) -> Result<(), Refusal>
    ensures { CheckedAs tables text.now (answer_number result) (answer_place result) }
{
    let front = first_stray(text, ACCOUNT_FIELD, account_column);
    if front < ACCOUNT_FIELD {
        return Err(Refusal::NoCard(front));
    }
    let fields = scan(text, tables);
    if fields.at == text.len() {
        return Ok(());
    }
    let place = first_stray(&text[fields.at..], TABLE_FIELD, |j, c| {
        table_column(j, c, fields.above, tables)
    });
    Err(Refusal::NoCard(fields.at + place))
}

// The check: whether a text is a card for an edition, and if not, where it leaves every card.
pub fn check(edition: u8, text: &[u8]) -> Result<(), Refusal>
    ensures { CheckedFor edition text.now (answer_number result) (answer_place result) }
{
    if !values::is_edition(edition) {
        return Err(Refusal::NoEdition);
    }
    check_of(text, values::tables_of(edition))
}

// A frame: its start up to the content, the content, the closing bracket, ETX and BCC, with parity.
fn put_frame(out: &mut [u8], start: &[u8], content: &[u8])
    requires { (1 ≤ length start.now) × (length start.now + length content.now + 3 ≤ length out.old) × (length start.now ≤ 9) × (length content.now ≤ row_length) }
    ensures { out.new ≡ holding out.old (on_wire (sealed (start.now ++ (content.now ++ chars ")")))) }
{
    let a = text::put(out, 0, start);
    let b = text::put(out, a, content);
    let c = text::put(out, b, b")");
    frames::seal(out, c);
}

// The frame that sets the account.
fn account_frame(account: &[u8]) -> [u8; 19]
    requires { length account.now ≡ 10 }
    ensures { result ≡ account_frame account.now }
{
    let mut frame = [0u8; ACCOUNT_FRAME];
    put_frame(&mut frame, b"\x01W1\x02K(", account);
    frame
}

// The frame that sets a table.
fn table_frame(number: u8, row: &[u8]) -> [u8; 36]
    requires { length row.now ≡ row_length }
    ensures { result ≡ on_wire (frame_of W1 (set_table number row.now)) }
{
    let tens = b'0' + number / 10 % 10;
    let unit = b'0' + number % 10;
    let mut frame = [0u8; TABLE_FRAME];
    put_frame(
        &mut frame,
        &[
            line::SOH,
            b'W',
            b'1',
            line::STX,
            b'Z',
            b'(',
            tens,
            unit,
            b';',
        ],
        row,
    );
    frame
}

// Writes the frame of a table, the first of them being 0.
fn write_frame(text: &[u8], i: usize, out: &mut [u8])
    requires { (13 + 28 * i + 28 ≤ length text.now) × (19 + 36 * i + 36 ≤ length out.old) }
    ensures { out.new ≡ stored out.old (19 + 36 * i) (field_frame (drop (13 + 28 * i) text.now)) }
{
    let row = 17 + 28 * i;
    let end = row + ROW_LENGTH;
    let frame = table_frame(text[row - 1], &text[row..end]);
    text::put(out, 19 + 36 * i, &frame);
}

// Writes the frames of so many tables, behind the account's.
fn write_tables(text: &[u8], tables: usize, out: &mut [u8])
    requires { (13 + 28 * tables ≤ length text.now) × (19 + 36 * tables ≤ length out.old) }
    ensures { out.new ≡ stored out.old 19 (field_frames (drop 13 text.now) tables) }
{
    for i in 0..tables {
        write_frame(text, i, out);
    }
}

// Writes the frames of a card with so many tables.
fn write_frames(text: &[u8], tables: usize, out: &mut [u8])
    requires { (13 + 28 * tables ≤ length text.now) × (19 + 36 * tables ≤ length out.old) }
    ensures { out.new ≡ stored out.old 0 (text_frames text.now tables) }
{
    let first = account_frame(&text[3..13]);
    text::put(out, 0, &first);
    write_tables(text, tables, out);
}

// A card read, for so many tables: how long the frames are.
pub fn read_of(text: &[u8], out: &mut [u8], tables: u8) -> Result<usize, Refusal>
    ensures { ReadAs tables text.now out.old (answer_number result) (answer_length result) (answer_place result) out.new }
{
    check_of(text, tables)?;
    let rows = text.len() / TABLE_FIELD;
    let length = ACCOUNT_FRAME + TABLE_FRAME * rows;
    if out.len() < length {
        return Err(Refusal::NoRoom);
    }
    write_frames(text, rows, out);
    Ok(length)
}

// A card read for an edition: the frames that set the account and then the tables, or why there are none; a refusal leaves the buffer as it was.
pub fn read(edition: u8, text: &[u8], out: &mut [u8]) -> Result<usize, Refusal>
    ensures { ReadFor edition text.now out.old (answer_number result) (answer_length result) (answer_place result) out.new }
{
    if !values::is_edition(edition) {
        return Err(Refusal::NoEdition);
    }
    read_of(text, out, values::tables_of(edition))
}
