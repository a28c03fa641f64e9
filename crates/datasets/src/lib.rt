// Data sets: each value that a meter shows as its line, `address(value)` CR LF, put into a lent buffer.
// Each function gives the place after its line.
#![tactic(auto)]

ghost use Rattle.std.specs.Prelude.{◌≡◌, ◌++◌, ◌+◌, ◌≤◌, length, take, drop};
ghost use Rattle.line.specs.Quoted.{chars};
ghost use Rattle.text.specs.Writing.{stored};
ghost use Rattle.values.specs.Edition.{row_length};
ghost use Rattle.values.specs.Registers.{energy_no};
ghost use Rattle.values.specs.Texts.{energy_text};
ghost use Rattle.datasets.specs.Sets.{line_of, time_set, date_set, serial_set, account_set, energy_set, table_set, closed_set, kept_set};

use clock::{Date, Stamp, Time};
use values::{Energy, ROW_LENGTH, TableNo, ZoneNo};

// A time as `0.9.1(hh:nn:ss)`.
// Stays: each data set has a writer of its own between address and bracket; handed over as a closure it would need its whole clause again at each call.
pub fn put_time_set(buf: &mut [u8], at: usize, time: Time) -> usize
    requires { at + 17 ≤ length buf.old }
    ensures next { result ≡ at + 17 }
    ensures held { buf.new ≡ stored buf.old at (line_of (time_set time)) }
{
    let a = text::put(buf, at, b"0.9.1(");
    let b = values::writing::put_time(buf, a, time);
    text::put(buf, b, b")\r\n")
}

// A date as `0.9.2(yy-mm-dd)`.
// Stays: as `put_time_set`.
pub fn put_date_set(buf: &mut [u8], at: usize, date: Date) -> usize
    requires { at + 17 ≤ length buf.old }
    ensures next { result ≡ at + 17 }
    ensures held { buf.new ≡ stored buf.old at (line_of (date_set date)) }
{
    let a = text::put(buf, at, b"0.9.2(");
    let b = values::writing::put_date(buf, a, date);
    text::put(buf, b, b")\r\n")
}

// A serial as `C.1.0(nnn nnnnnnn)`.
// Stays: as `put_time_set`.
pub fn put_serial_set(buf: &mut [u8], at: usize, s: &[u8]) -> usize
    requires { (length s.now ≡ 10) × (at + 20 ≤ length buf.old) }
    ensures next { result ≡ at + 20 }
    ensures held { buf.new ≡ stored buf.old at (line_of (serial_set s.now)) }
{
    let a = text::put(buf, at, b"C.1.0(");
    let b = values::writing::put_serial(buf, a, s);
    text::put(buf, b, b")\r\n")
}

// An account as `0.0.0(account)`.
pub fn put_account_set(buf: &mut [u8], at: usize, s: &[u8]) -> usize
    requires { (length s.now ≡ 10) × (at + 19 ≤ length buf.old) }
    ensures next { result ≡ at + 19 }
    ensures held { buf.new ≡ stored buf.old at (line_of (account_set s.now)) }
{
    let a = text::put(buf, at, b"0.0.0(");
    let b = text::put(buf, a, s);
    text::put(buf, b, b")\r\n")
}

// A counter behind the bracket: its value, and what ends the line.
fn put_shown(buf: &mut [u8], at: usize, n: u32, family: u8) -> usize
    requires { at + 17 ≤ length buf.old }
    ensures next { result ≡ at + length (energy_text family n ++ chars ")\r\n") }
    ensures held { buf.new ≡ stored buf.old at (energy_text family n ++ chars ")\r\n") }
{
    let a = values::writing::put_counter(buf, at, n, family);
    text::put(buf, a, b")\r\n")
}

// A counter's line, whose opening is its address and the bracket.
fn put_counter_set(buf: &mut [u8], at: usize, opening: &[u8], n: u32, family: u8) -> usize
    requires { at + length opening.now + 17 ≤ length buf.old }
    ensures next { result ≡ at + length (opening.now ++ (energy_text family n ++ chars ")\r\n")) }
    ensures held { buf.new ≡ stored buf.old at (opening.now ++ (energy_text family n ++ chars ")\r\n")) }
{
    let a = text::put(buf, at, opening);
    put_shown(buf, a, n, family)
}

// A counter as `15.8.n(eeeeee.eee*kWh)`; of an EQM meter as `1.8.n`, or as `2.8.n` what went out.
pub fn put_energy_set(buf: &mut [u8], at: usize, e: Energy, n: u32, out: bool, family: u8) -> usize
    requires { at + 24 ≤ length buf.old }
    ensures next { result ≡ at + length (line_of (energy_set family out (energy_no e) n)) }
    ensures held { buf.new ≡ stored buf.old at (line_of (energy_set family out (energy_no e) n)) }
{
    let digit = 48 + values::energy_no(e) % 10;
    if out {
        let opening = [b'2', b'.', b'8', b'.', digit, b'('];
        return put_counter_set(buf, at, &opening, n, family);
    }
    if family == 0 {
        let opening = [b'1', b'5', b'.', b'8', b'.', digit, b'('];
        return put_counter_set(buf, at, &opening, n, family);
    }
    let opening = [b'1', b'.', b'8', b'.', digit, b'('];
    put_counter_set(buf, at, &opening, n, family)
}

// Eight characters of a row. They are copied out first: one move or two each way, as their number is fixed and a local array is apart from the buffer.
fn put_eight(buf: &mut [u8], at: usize, row: &[u8], from: usize) -> usize
    requires { (from + 8 ≤ length row.now) × (at + 8 ≤ length buf.old) }
    ensures next { result ≡ at + 8 }
    ensures held { buf.new ≡ stored buf.old at (take 8 (drop from row.now)) }
{
    let copy = <[u8; 8]>::try_from(&row[from..from + 8]).unwrap();
    text::put(buf, at, &copy)
}

// A whole row, in three parts that a processor with small registers moves too.
fn put_whole_row(buf: &mut [u8], at: usize, row: &[u8]) -> usize
    requires { (length row.now ≡ row_length) × (at + row_length ≤ length buf.old) }
    ensures next { result ≡ at + row_length }
    ensures held { buf.new ≡ stored buf.old at row.now }
{
    let a = put_eight(buf, at, row, 0);
    let b = put_eight(buf, a, row, 8);
    put_eight(buf, b, row, 16)
}

// A row of any length.
fn put_row(buf: &mut [u8], at: usize, row: &[u8]) -> usize
    requires { at + length row.now ≤ length buf.old }
    ensures next { result ≡ at + length row.now }
    ensures held { buf.new ≡ stored buf.old at row.now }
{
    if row.len() == ROW_LENGTH {
        return put_whole_row(buf, at, row);
    }
    text::put(buf, at, row)
}

// A table's row as `131.0.xx(row)`.
pub fn put_table_set(buf: &mut [u8], at: usize, t: TableNo, row: &[u8]) -> usize
    requires { at + 12 + length row.now ≤ length buf.old }
    ensures next { result ≡ at + 12 + length row.now }
    ensures held { buf.new ≡ stored buf.old at (line_of (table_set t.0 row.now)) }
{
    let n = t.0;
    let opening = [
        b'1',
        b'3',
        b'1',
        b'.',
        b'0',
        b'.',
        48 + n / 10 % 10,
        48 + n % 10,
        b'(',
    ];
    let a = text::put(buf, at, &opening);
    let b = put_row(buf, a, row);
    text::put(buf, b, b")\r\n")
}

// The time of the period numbered k as `0.1.2*kk(yy-mm-dd hh:nn)`.
pub fn put_closed_set(buf: &mut [u8], at: usize, k: u8, stamp: Stamp) -> usize
    requires { at + 26 ≤ length buf.old }
    ensures next { result ≡ at + 26 }
    ensures held { buf.new ≡ stored buf.old at (line_of (closed_set k stamp)) }
{
    let opening = [
        b'0',
        b'.',
        b'1',
        b'.',
        b'2',
        b'*',
        48 + k / 10 % 10,
        48 + k % 10,
        b'(',
    ];
    let a = text::put(buf, at, &opening);
    let b = values::writing::put_stamp(buf, a, stamp);
    text::put(buf, b, b")\r\n")
}

// A zone's counter in the period numbered k: the same with `*kk` behind n.
pub fn put_kept_set(
    buf: &mut [u8],
    at: usize,
    k: u8,
    z: ZoneNo,
    n: u32,
    out: bool,
    family: u8,
) -> usize
    requires { at + 27 ≤ length buf.old }
    ensures next { result ≡ at + length (line_of (kept_set family out k z.0 n)) }
    ensures held { buf.new ≡ stored buf.old at (line_of (kept_set family out k z.0 n)) }
{
    let d = 48 + z.0 % 10;
    let t = 48 + k / 10 % 10;
    let u = 48 + k % 10;
    if out {
        let opening = [b'2', b'.', b'8', b'.', d, b'*', t, u, b'('];
        return put_counter_set(buf, at, &opening, n, family);
    }
    if family == 0 {
        let opening = [b'1', b'5', b'.', b'8', b'.', d, b'*', t, u, b'('];
        return put_counter_set(buf, at, &opening, n, family);
    }
    let opening = [b'1', b'.', b'8', b'.', d, b'*', t, u, b'('];
    put_counter_set(buf, at, &opening, n, family)
}
