// Dates, times, counters and table numbers read back from their texts.
ghost use Rattle.std.specs.Prelude.{◌≡◌, ◌+◌, ◌-◌, ◌<◌};
ghost use Rattle.values.specs.Numbers.{Above, ClockAt, three_of};
ghost use Rattle.clock.specs.Seconds.{date_of};
ghost use Rattle.eights.specs.Lanes.{paired};
ghost use Rattle.values.specs.Reading.{date_found, time_found, clock_found, stamp_found, counter_found, table_found, some_date, some_time, some_table, clock_in, date_read, time_read, clock_read, stamp_read, energy_read, table_read};

use crate::TableNo;
use crate::counter::{counter_in, is_counter};
use crate::family::counter_digits;
use crate::number::{Three, three_at, two};
use clock::{Clock, Date, Stamp, Time};

// What `##-##-##`, `##:##:##` and `## ##:##` have in their lanes: the least characters, the bits that those of a lane share, and what a digit
// has to spare.
const DATE: u64 = 0x3030_2D30_302D_3030;

const TIME: u64 = 0x3030_3A30_303A_3030;

const HOURS: u64 = 0x3030_3A30_3020_3030;

const BITS: u64 = 0xF0F0_FFF0_F0FF_F0F0;

const SPARE: u64 = 0x0606_0006_0600_0606;

// The three numbers of two digits in eight such characters.
fn three_above(w: u64, least: u64) -> Three
    requires { Above w least }
    ensures { result ≡ three_of (paired (w - least)) }
{
    let p = eights::pairs(w, least);
    Three {
        first: (p % 0x100) as u8,
        second: (p / 0x100_0000 % 0x100) as u8,
        third: (p / 0x1_0000_0000_0000 % 0x100) as u8,
    }
}

// The date that three numbers say, if it is real.
fn date_of(t: Three) -> Option<Date>
    requires { t.first < 100 }
    ensures { date_found result ≡ some_date (2000 + t.first) t.second t.third }
{
    let date = Date {
        year: 2000 + t.first as u16,
        month: t.second,
        day: t.third,
    };
    clock::is_date(date.year, date.month, date.day).then_some(date)
}

// A date from `yy-mm-dd`, of 20yy.
// Stays: it and `read_time` differ in form, reader and type, which a shared function would all take.
pub fn read_date(s: &[u8]) -> Option<Date>
    ensures { date_found result ≡ date_read s.now }
{
    if s.len() != 8 {
        return None;
    }
    let w = eights::eight(s, 0);
    if eights::keeps_form(w, DATE, BITS, SPARE) {
        return date_of(three_above(w, DATE));
    }
    None
}

// The time that three numbers say, if it is real.
fn time_of(t: Three) -> Option<Time>
    ensures { time_found result ≡ some_time t.first t.second t.third }
{
    let time = Time {
        hour: t.first,
        minute: t.second,
        second: t.third,
    };
    clock::is_time(time.hour, time.minute, time.second).then_some(time)
}

// A time from `hh:nn:ss`.
// Stays: as `read_date`.
pub fn read_time(s: &[u8]) -> Option<Time>
    ensures { time_found result ≡ time_read s.now }
{
    if s.len() != 8 {
        return None;
    }
    let w = eights::eight(s, 0);
    if eights::keeps_form(w, TIME, BITS, SPARE) {
        return time_of(three_above(w, TIME));
    }
    None
}

// The clock of a text of its form, real or not.
fn clock_in(s: &[u8]) -> Clock
    requires { ClockAt s.now }
    ensures { result ≡ clock_in s.now }
{
    let d = two(s, 0);
    let m = two(s, 3);
    let y = two(s, 6) * 100 + two(s, 8);
    let t = three_at(s, 11);
    Clock {
        date: Date {
            year: y,
            month: m as u8,
            day: d as u8,
        },
        time: Time {
            hour: t.first,
            minute: t.second,
            second: t.third,
        },
    }
}

// A clock from `dd-mm-yyyy;hh:nn:ss`.
pub fn read_clock(s: &[u8]) -> Option<Clock>
    ensures { clock_found result ≡ clock_read s.now }
{
    if text::has_form(b"##-##-####;##:##:##", s) {
        let c = clock_in(s);
        return clock::is_clock(c).then_some(c);
    }
    None
}

// The stamp that year and month, and then day, hour and minute say, real or not.
fn stamp_of(a: Three, b: Three) -> Stamp
    ensures { result ≡ record { date = date_of (2000 + a.first) a.second b.first; hour = b.second; minute = b.third } }
{
    Stamp {
        date: Date {
            year: 2000 + a.first as u16,
            month: a.second,
            day: b.first,
        },
        hour: b.second,
        minute: b.third,
    }
}

// A stamp from `yy-mm-dd hh:nn`.
pub fn read_stamp(s: &[u8]) -> Option<Stamp>
    ensures { stamp_found result ≡ stamp_read s.now }
{
    if s.len() != 14 {
        return None;
    }
    let w = eights::eight(s, 0);
    let v = eights::eight(s, 6);
    let first = eights::keeps_form(w, DATE, BITS, SPARE);
    let last = eights::keeps_form(v, HOURS, BITS, SPARE);
    if first & last {
        let t = stamp_of(three_above(w, DATE), three_above(v, HOURS));
        return clock::is_stamp(t).then_some(t);
    }
    None
}

// A counter from `eeeeee.eee*kWh`, or as another family shows it. Its last eight characters are the unit and four before it.
pub fn read_counter(s: &[u8], family: u8) -> Option<u32>
    ensures { counter_found result ≡ energy_read family s.now }
{
    let at = counter_digits(family) - 3;
    if s.len() != at + 8 {
        return None;
    }
    let w = eights::eight(s, 0);
    let v = eights::eight(s, at);
    if is_counter(w, v, family) {
        return Some(counter_in(w, v, family));
    }
    None
}

// The table that a number of two digits names, of so many tables.
fn table_of(n: u16, tables: u8) -> Option<TableNo>
    requires { n < 256 }
    ensures { table_found result ≡ some_table tables n }
{
    let t = TableNo(n as u8);
    crate::is_table(t, tables).then_some(t)
}

// A table's number from `xx`, of so many tables.
pub fn read_table(s: &[u8], tables: u8) -> Option<TableNo>
    ensures { table_found result ≡ table_read tables s.now }
{
    if text::has_form(b"##", s) {
        return table_of(two(s, 0), tables);
    }
    None
}
