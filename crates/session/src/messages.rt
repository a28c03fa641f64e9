// The messages of a session, built one by one.
ghost use Rattle.std.specs.Prelude.{◌≡◌, true, ◌≤◌};
ghost use Rattle.values.specs.Edition.{tables_of};
ghost use Rattle.frames.specs.Frames.{on_wire};
ghost use Rattle.commands.specs.Spoken.{good_fields, spoken};
ghost use Rattle.commands.specs.Messages.{text_of, good_message};
ghost use Rattle.commands.specs.Building.{told, Builds};
ghost use Rattle.session.specs.Messages.{calling, entering, read_of, read_at, whole_line, row_in, row_at, work_at, message_at};

use crate::Session;
use commands::Refusal;
use values::{TableNo, ZoneNo};

// How long a post's line is, and where its number, its bracket, its row and its end stand.
const LINE: usize = 36;

const NUMBER: usize = 6;

const BRACKET: usize = 8;

const ROW: usize = 9;

const CLOSING: usize = 33;

// The sign-on.
pub fn call(s: Session, buf: &mut [u8]) -> Result<usize, Refusal>
    ensures { Builds buf.old (good_message (tables_of s.edition) s.decimals (calling s)) (on_wire (text_of (calling s))) (told result) buf.new }
{
    if s.named == 1 {
        return commands::sign_on_to(buf, &s.serial);
    }
    commands::sign_on(buf)
}

// The password or `()`.
fn enter(s: Session, buf: &mut [u8]) -> Result<usize, Refusal>
    ensures { Builds buf.old (good_message (tables_of s.edition) s.decimals (entering s)) (on_wire (text_of (entering s))) (told result) buf.new }
{
    if s.access == 1 {
        return commands::password(buf, &s.password);
    }
    commands::enter(buf)
}

// R1 of an energy; 0 is the total.
fn read_energy(tables: u8, family: u8, n: u8, buf: &mut [u8]) -> Result<usize, Refusal>
    ensures { Builds buf.old (good_fields tables family (read_of 69 n)) (on_wire (spoken (read_of 69 n))) (told result) buf.new }
{
    if n == 0 {
        return commands::read_total(buf);
    }
    commands::read_zone(buf, ZoneNo(n))
}

// R1 of what went out, which a meter of document 01's family does not tell.
fn read_export(tables: u8, family: u8, n: u8, buf: &mut [u8]) -> Result<usize, Refusal>
    ensures { Builds buf.old (good_fields tables family (read_of 71 n)) (on_wire (spoken (read_of 71 n))) (told result) buf.new }
{
    match (family, n) {
        (0, _) => commands::read_zone_out(buf, ZoneNo(0)),
        (_, 0) => commands::read_total_out(buf),
        _ => commands::read_zone_out(buf, ZoneNo(n)),
    }
}

// A read of a letter and its number.
fn read(tables: u8, family: u8, letter: u8, n: u8, buf: &mut [u8]) -> Result<usize, Refusal>
    ensures { Builds buf.old (good_fields tables family (read_of letter n)) (on_wire (spoken (read_of letter n))) (told result) buf.new }
{
    match letter {
        b'T' => commands::read_clock(buf),
        b'L' => commands::read_serial(buf),
        b'K' => commands::read_account(buf),
        b'E' => read_energy(tables, family, n, buf),
        b'G' => read_export(tables, family, n, buf),
        b'Z' => commands::read_table_of(buf, tables, TableNo(n)),
        _ => commands::read_table_of(buf, tables, TableNo(0)),
    }
}

// Whether a line has all that a post's line has beside its number and its row.
fn is_whole(s: &[u8]) -> bool
    ensures { result ≡ whole_line s.now }
{
    let opened = text::same(text::first(s, NUMBER), b"131.0.") & (text::at(s, BRACKET) == b'(');
    opened & text::same(text::rest(s, CLOSING), b")\r\n")
}

// The write of a post's line.
fn write_row(tables: u8, family: u8, s: &[u8], buf: &mut [u8]) -> Result<usize, Refusal>
    ensures { Builds buf.old (good_fields tables family (row_in tables s.now)) (on_wire (spoken (row_in tables s.now))) (told result) buf.new }
{
    if !is_whole(s) {
        return commands::write_table_of(buf, tables, TableNo(0), b"");
    }
    let read = values::reading::read_table(text::first(text::rest(s, NUMBER), 2), tables);
    let table = read.unwrap_or(TableNo(0));
    commands::write_table_of(
        buf,
        tables,
        table,
        text::first(text::rest(s, ROW), values::ROW_LENGTH),
    )
}

// One message of the work.
fn work_at(s: Session, work: &[u8], i: u8, buf: &mut [u8]) -> Result<usize, Refusal>
    ensures { Builds buf.old (good_fields (tables_of s.edition) s.decimals (work_at s work.now i)) (on_wire (spoken (work_at s work.now i))) (told result) buf.new }
{
    let tables = values::tables_of(s.edition);
    if s.work == 1 {
        return write_row(
            tables,
            s.decimals,
            text::first(text::rest(work, i as usize * LINE), LINE),
            buf,
        );
    }
    let at = i as usize * 2;
    read(
        tables,
        s.decimals,
        text::at(work, at),
        text::at(work, at + 1),
        buf,
    )
}

// The message of a number, the sign-on being 1.
pub fn build(s: Session, work: &[u8], n: u8, buf: &mut [u8]) -> Result<usize, Refusal>
    requires { s.count ≤ 32 }
    ensures { Builds buf.old (good_message (tables_of s.edition) s.decimals (message_at s work.now n)) (on_wire (text_of (message_at s work.now n))) (told result) buf.new }
{
    match n {
        1 => call(s, buf),
        2 => commands::confirm(buf, b'5', b'1'),
        3 => enter(s, buf),
        _ if n <= s.count + 3 => work_at(s, work, n.saturating_sub(4), buf),
        _ => commands::sign_off(buf),
    }
}
