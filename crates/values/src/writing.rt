// Values put into a lent buffer as the texts that show them. Each gives the place after its text.
ghost use Rattle.std.specs.Prelude.{◌≡◌, ◌+◌, ◌-◌, ◌/◌, ◌%◌, ◌≤◌, length};
ghost use Rattle.line.specs.Quoted.{char};
ghost use Rattle.text.specs.Decimal.{decimal};
ghost use Rattle.text.specs.Writing.{stored};
ghost use Rattle.values.specs.Family.{counter_digits};
ghost use Rattle.values.specs.Texts.{parted, serial_text, wired_text, table_text, date_text, time_text, clock_text, stamp_text, pointed, energy_text};

use crate::TableNo;
use clock::{Clock, Date, Stamp, Time};

// The digit of a number's tens, and that of its units.
fn tens(n: u8) -> u8
    ensures { result ≡ char "0" + n / 10 % 10 }
{
    b'0' + n / 10 % 10
}

fn units(n: u8) -> u8
    ensures { result ≡ char "0" + n % 10 }
{
    b'0' + n % 10
}

// A serial with a character between its third digit and the fourth.
// Stays: a public function keeps its parameters, and hands the slice on.
fn put_parted(buf: &mut [u8], at: usize, s: &[u8], between: u8) -> usize
    requires { (length s.now ≡ 10) × (at + 11 ≤ length buf.old) }
    ensures next { result ≡ at + 11 }
    ensures held { buf.new ≡ stored buf.old at (parted between s.now) }
{
    let a = text::put(buf, at, &s[0..3]);
    let b = text::put(buf, a, &[between]);
    text::put(buf, b, &s[3..10])
}

// A serial as `nnn nnnnnnn`.
pub fn put_serial(buf: &mut [u8], at: usize, s: &[u8]) -> usize
    requires { (length s.now ≡ 10) × (at + 11 ≤ length buf.old) }
    ensures next { result ≡ at + 11 }
    ensures held { buf.new ≡ stored buf.old at (serial_text s.now) }
{
    put_parted(buf, at, s, b' ')
}

// A serial as `nnn.nnnnnnn`.
// Stays: a public function keeps its parameters, and its like `put_serial` too.
pub fn put_wired(buf: &mut [u8], at: usize, s: &[u8]) -> usize
    requires { (length s.now ≡ 10) × (at + 11 ≤ length buf.old) }
    ensures next { result ≡ at + 11 }
    ensures held { buf.new ≡ stored buf.old at (wired_text s.now) }
{
    put_parted(buf, at, s, b'.')
}

// A table's number as `xx`.
pub fn put_table(buf: &mut [u8], at: usize, t: TableNo) -> usize
    requires { at + 2 ≤ length buf.old }
    ensures next { result ≡ at + 2 }
    ensures held { buf.new ≡ stored buf.old at (table_text t.0) }
{
    text::put(buf, at, &[tens(t.0), units(t.0)])
}

// A date as `yy-mm-dd`.
pub fn put_date(buf: &mut [u8], at: usize, date: Date) -> usize
    requires { at + 8 ≤ length buf.old }
    ensures next { result ≡ at + 8 }
    ensures held { buf.new ≡ stored buf.old at (date_text date) }
{
    let y = date.year.saturating_sub(2000);
    let shown = [
        b'0' + (y / 10 % 10) as u8,
        b'0' + (y % 10) as u8,
        b'-',
        tens(date.month),
        units(date.month),
        b'-',
        tens(date.day),
        units(date.day),
    ];
    text::put(buf, at, &shown)
}

// A time as `hh:nn:ss`.
pub fn put_time(buf: &mut [u8], at: usize, time: Time) -> usize
    requires { at + 8 ≤ length buf.old }
    ensures next { result ≡ at + 8 }
    ensures held { buf.new ≡ stored buf.old at (time_text time) }
{
    let shown = [
        tens(time.hour),
        units(time.hour),
        b':',
        tens(time.minute),
        units(time.minute),
        b':',
        tens(time.second),
        units(time.second),
    ];
    text::put(buf, at, &shown)
}

// A clock as `dd-mm-yyyy;hh:nn:ss`.
pub fn put_clock(buf: &mut [u8], at: usize, c: Clock) -> usize
    requires { at + 19 ≤ length buf.old }
    ensures next { result ≡ at + 19 }
    ensures held { buf.new ≡ stored buf.old at (clock_text c) }
{
    let y = c.date.year;
    let shown = [
        tens(c.date.day),
        units(c.date.day),
        b'-',
        tens(c.date.month),
        units(c.date.month),
        b'-',
        b'0' + (y / 10 / 10 / 10 % 10) as u8,
        b'0' + (y / 10 / 10 % 10) as u8,
        b'0' + (y / 10 % 10) as u8,
        b'0' + (y % 10) as u8,
        b';',
    ];
    let a = text::put(buf, at, &shown);
    put_time(buf, a, c.time)
}

// A stamp as `yy-mm-dd hh:nn`.
pub fn put_stamp(buf: &mut [u8], at: usize, stamp: Stamp) -> usize
    requires { at + 14 ≤ length buf.old }
    ensures next { result ≡ at + 14 }
    ensures held { buf.new ≡ stored buf.old at (stamp_text stamp) }
{
    let shown = [
        b' ',
        tens(stamp.hour),
        units(stamp.hour),
        b':',
        tens(stamp.minute),
        units(stamp.minute),
    ];
    let a = put_date(buf, at, stamp.date);
    text::put(buf, a, &shown)
}

// A number's last nine digits. It is parted into numbers of four digits, and those into pairs: so each is small enough that a processor
// which cannot divide has its digits by a product.
fn nine_digits(n: u32) -> [u8; 9]
    ensures { result ≡ decimal 9 n }
{
    let above = n / 10_000;
    let mid = (above % 10_000) as u16;
    let low = (n % 10_000) as u16;
    let a = (mid / 100) as u8;
    let b = (mid % 100) as u8;
    let c = (low / 100) as u8;
    let d = (low % 100) as u8;
    [
        b'0' + (above / 10_000 % 10) as u8,
        tens(a),
        units(a),
        tens(b),
        units(b),
        tens(c),
        units(c),
        tens(d),
        units(d),
    ]
}

// Of nine digits those from the first that is shown on, with the point, and the unit.
fn put_pointed(buf: &mut [u8], at: usize, nine: &[u8], first: usize, point: usize) -> usize
    requires { ((length nine.now ≡ 9) × ((first ≤ point) × (point ≤ 9))) × (at + (9 - first + 5) ≤ length buf.old) }
    ensures next { result ≡ at + (9 - first + 5) }
    ensures held { buf.new ≡ stored buf.old at (pointed first point nine.now) }
{
    let a = text::put(buf, at, &nine[first..point]);
    let b = text::put(buf, a, b".");
    let c = text::put(buf, b, &nine[point..9]);
    text::put(buf, c, b"*kWh")
}

// A counter as `eeeeee.eee*kWh`, or as another family shows it. Each family has its own call, with places that are constants: so the compiler moves its characters with no loop.
pub fn put_counter(buf: &mut [u8], at: usize, n: u32, family: u8) -> usize
    requires { at + (counter_digits family + 5) ≤ length buf.old }
    ensures next { result ≡ at + (counter_digits family + 5) }
    ensures held { buf.new ≡ stored buf.old at (energy_text family n) }
{
    let nine = nine_digits(n);
    match family {
        0 => put_pointed(buf, at, &nine, 0, 6),
        2 => put_pointed(buf, at, &nine, 1, 7),
        3 => put_pointed(buf, at, &nine, 1, 6),
        _ => put_pointed(buf, at, &nine, 1, 5),
    }
}
