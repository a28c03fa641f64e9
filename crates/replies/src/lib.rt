// What the meter answers: the fixed sequences, the data that R1 asks for, and the data block.
// Each is put into the reply buffer from its front on, with parity, and its length given.
#![tactic(auto)]

ghost use Rattle.std.specs.Prelude.{◌≡◌, ◌++◌, ◌+◌, ◌*◌, ◌≤◌, length, take};
ghost use Rattle.line.specs.Quoted.{chars};
ghost use Rattle.text.specs.Writing.{stored, holding};
ghost use Rattle.frames.specs.Frames.{sealed, block_of, on_wire};
ghost use Rattle.frames.specs.Session.{wired_answer};
ghost use Rattle.state.specs.Sizes.{table_places, period_places, reply_room};
ghost use Rattle.state.specs.Closing.{periods_of};
ghost use Rattle.datasets.specs.Sets.{lines_of};
ghost use Rattle.replies.specs.Plain.{registers_of, without_archive};
ghost use Rattle.replies.specs.Answers.{asked_data};
ghost use Rattle.replies.specs.Block.{block_data};
ghost use Rattle.replies.specs.Periods.{archive_sets, long_start, long_data};
ghost use Rattle.replies.specs.Fixed.{identification, password_ask, accepted, refused};

use clock::Clock;
use state::{ALL_ROWS, Archive, Counters, Facts};
use values::{Energy, TableNo};

mod answers;
mod block;

// The registers but for the tables and the archive, which are long and are lent.
#[derive(Clone, Copy)]
pub struct Plain {
    pub facts: Facts,
    pub account: [u8; 10],
    pub clock: Clock,
    pub counters: Counters,
    pub exported: Counters,
}

// What R1 asks for: an energy is that of what came in, an export that of what went out.
#[derive(Clone, Copy)]
pub enum Ask {
    Clock,
    Serial,
    Account,
    Energy(Energy),
    Export(Energy),
    Table(TableNo),
}

// Puts a text in front, with parity.
fn send(buf: &mut [u8], s: &[u8]) -> usize
    requires { length s.now ≤ length buf.old }
    ensures whole { result ≡ length s.now }
    ensures held { buf.new ≡ holding buf.old (on_wire s.now) }
{
    let n = text::put(buf, 0, s);
    line::put_parity(&mut buf[..n]);
    n
}

// The identification of an edition, which answers a sign-on.
pub fn identify(buf: &mut [u8], edition: u8) -> usize
    requires { 19 ≤ length buf.old }
    ensures whole { result ≡ length (identification edition) }
    ensures held { buf.new ≡ holding buf.old (on_wire (identification edition)) }
{
    if edition == 2 {
        return send(buf, b"/ZZZ5SUB-VP02.00*\r\n");
    }
    send(buf, b"/ZZZ5SUB-VP01.00*\r\n")
}

// The answer to a sign-on on the wired link: our serial.
pub fn answer_call(buf: &mut [u8], serial: &[u8]) -> usize
    requires { (length serial.now ≡ 10) × (15 ≤ length buf.old) }
    ensures whole { result ≡ 15 }
    ensures held { buf.new ≡ holding buf.old (on_wire (wired_answer serial.now)) }
{
    let shown = frames::wired_line(b'g', serial);
    send(buf, &shown)
}

// ACK, for what was accepted.
pub fn acknowledge(buf: &mut [u8]) -> usize
    requires { 1 ≤ length buf.old }
    ensures whole { result ≡ 1 }
    ensures held { buf.new ≡ holding buf.old (on_wire accepted) }
{
    send(buf, b"\x06")
}

// NAK, for what was refused.
pub fn refuse(buf: &mut [u8]) -> usize
    requires { 1 ≤ length buf.old }
    ensures whole { result ≡ 1 }
    ensures held { buf.new ≡ holding buf.old (on_wire refused) }
{
    send(buf, b"\x15")
}

// The frame that asks for the password, P0 with `(0000)`.
pub fn ask_password(buf: &mut [u8]) -> usize
    requires { 12 ≤ length buf.old }
    ensures whole { result ≡ 12 }
    ensures held { buf.new ≡ holding buf.old (on_wire password_ask) }
{
    let n = text::put(buf, 0, b"\x01P0\x02(0000)");
    frames::seal(buf, n)
}

// The answer to R1.
// Stays: STX, what the reply holds, and the seal: with the middle handed over, its clause would stand at each call.
pub fn answer(buf: &mut [u8], p: Plain, rows: &[u8; ALL_ROWS], a: Ask) -> usize
    requires { reply_room ≤ length buf.old }
    ensures whole { result ≡ length (block_of (asked_data (without_archive p rows.now) a)) }
    ensures held { buf.new ≡ holding buf.old (on_wire (block_of (asked_data (without_archive p rows.now) a))) }
{
    let start = text::put(buf, 0, b"\x02");
    let end = answers::put_asked(buf, start, p, rows, a);
    frames::seal(buf, end)
}

// The data block, with so many tables.
pub fn data_block(buf: &mut [u8], p: Plain, rows: &[u8; ALL_ROWS], tables: u8) -> usize
    requires { (tables ≤ table_places) × (reply_room ≤ length buf.old) }
    ensures whole { result ≡ length (block_of (block_data tables (without_archive p rows.now))) }
    ensures held { buf.new ≡ holding buf.old (on_wire (block_of (block_data tables (without_archive p rows.now)))) }
{
    let start = text::put(buf, 0, b"\x02");
    let end = block::put_block(buf, start, p, rows, tables);
    frames::seal(buf, end)
}

// The start of the block with the closed periods: STX and the sets before them, without parity.
// Stays: a public function keeps its parameters; `Plain` is what of the registers is small, and the rest is lent beside it.
pub fn long_start(buf: &mut [u8], p: Plain, rows: &[u8; ALL_ROWS], tables: u8) -> usize
    requires { (tables ≤ table_places) × (reply_room ≤ length buf.old) }
    ensures next { result ≡ length (long_start tables (without_archive p rows.now)) }
    ensures held { buf.new ≡ stored buf.old 0 (long_start tables (without_archive p rows.now)) }
{
    let start = text::put(buf, 0, b"\x02");
    block::put_sets(buf, start, p, rows, tables)
}

// The periods that an archive keeps, numbered from 01 on.
pub fn put_periods(buf: &mut [u8], at: usize, a: Archive, family: u8) -> usize
    requires { (a.count ≤ period_places) × (at + a.count * 226 + 16 ≤ length buf.old) }
    ensures next { result ≡ at + length (lines_of (archive_sets family 1 (periods_of a))) }
    ensures held { buf.new ≡ stored buf.old at (lines_of (archive_sets family 1 (periods_of a))) }
{
    lent_periods(buf, at, &a, family)
}

// The same of an archive that is lent: each period is looked at where it lies.
pub fn lent_periods(buf: &mut [u8], at: usize, a: &Archive, family: u8) -> usize
    requires { (a.now.count ≤ period_places) × (at + a.now.count * 226 + 16 ≤ length buf.old) }
    ensures { (result ≡ at + length (lines_of (archive_sets family 1 (periods_of a.now))))
        × (buf.new ≡ stored buf.old at (lines_of (archive_sets family 1 (periods_of a.now)))) }
{
    let mut place = at;
    for i in 0..a.count {
        place = block::put_period(buf, place, i + 1, a.periods[i as usize], family);
    }
    place
}

// The end of the block: `!` CR LF, ETX, BCC, and parity on all of it.
pub fn long_end(buf: &mut [u8], at: usize) -> usize
    requires { (1 ≤ at) × (at + 5 ≤ length buf.old) }
    ensures whole { result ≡ at + 5 }
    ensures held { buf.new ≡ holding buf.old (on_wire (sealed (take at buf.old ++ chars "!\r\n"))) }
{
    let end = text::put(buf, at, b"!\r\n");
    frames::seal(buf, end)
}

// The data block with the closed periods.
pub fn long_block(
    buf: &mut [u8],
    p: Plain,
    rows: &[u8; ALL_ROWS],
    archive: Archive,
    tables: u8,
) -> usize
    requires { ((tables ≤ table_places) × (archive.count ≤ period_places)) × (reply_room ≤ length buf.old) }
    ensures whole { result ≡ length (block_of (long_data tables (registers_of p rows.now archive))) }
    ensures held { buf.new ≡ holding buf.old (on_wire (block_of (long_data tables (registers_of p rows.now archive)))) }
{
    let a = long_start(buf, p, rows, tables);
    let b = put_periods(buf, a, archive, p.facts.decimals);
    long_end(buf, b)
}
