// The clock: real dates of 2000 to 2099, the next second and the day of the week. Numbers only; their texts are in `values`.
#![tactic(auto)]

ghost use Rattle.std.specs.Prelude.{◌≡◌, cond, ◌&&◌, ◌-◌, ◌<◌, get_or, ltb};
ghost use Rattle.clock.specs.Dates.{days_of, leap, days_in, real_date, real_time};
ghost use Rattle.clock.specs.Seconds.{real_clock, real_stamp, stamp_of, date_of, time_of, next_month, next_day, next_second};
ghost use Rattle.clock.specs.Weekday.{days_before, weekday};

#[repr(C)]
#[derive(Clone, Copy)]
pub struct Date {
    pub year: u16,
    pub month: u8,
    pub day: u8,
}

#[repr(C)]
#[derive(Clone, Copy)]
pub struct Time {
    pub hour: u8,
    pub minute: u8,
    pub second: u8,
}

#[repr(C)]
#[derive(Clone, Copy)]
pub struct Clock {
    pub date: Date,
    pub time: Time,
}

// What is shown of the time at which something was kept: no second.
#[repr(C)]
#[derive(Clone, Copy)]
pub struct Stamp {
    pub date: Date,
    pub hour: u8,
    pub minute: u8,
}

pub fn is_leap(y: u16) -> bool
    ensures { result ≡ leap y }
{
    (y % 4 == 0) & (!(y % 100 == 0) | (y % 400 == 0))
}

// How many days a month has, in a leap year or not.
fn days_of(long: bool, m: u8) -> u8
    ensures { result ≡ days_of long m }
{
    if m == 2 {
        return if long { 29 } else { 28 };
    }
    // Stays: of a `match` with an arm for 4, 6, 9 and 11 at once the proof of the arm `_` knows nothing (`31 ≡ days_of long m` is left).
    let short = (((m == 4) | (m == 6)) | (m == 9)) | (m == 11);
    if short { 30 } else { 31 }
}

pub fn days_in(y: u16, m: u8) -> u8
    ensures { result ≡ days_in y m }
{
    days_of(is_leap(y), m)
}

// Of the years that a date may have every fourth is a leap year, 2000 too. Every month has its first 28 days.
pub fn is_date(y: u16, m: u8, d: u8) -> bool
    ensures { result ≡ real_date y m d }
{
    if !(((2000 <= y) & (y <= 2099)) & ((1 <= m) & (m <= 12))) {
        return false;
    }
    if (1 <= d) & (d <= 28) {
        return true;
    }
    (29 <= d) & (d <= days_of(y % 4 == 0, m))
}

pub fn is_time(h: u8, n: u8, s: u8) -> bool
    ensures { result ≡ real_time h n s }
{
    ((h <= 23) & (n <= 59)) & (s <= 59)
}

// Whether a clock shows a real date and time.
pub fn is_clock(c: Clock) -> bool
    ensures { result ≡ real_clock c }
{
    is_date(c.date.year, c.date.month, c.date.day)
        && is_time(c.time.hour, c.time.minute, c.time.second)
}

// Whether a stamp shows a real date and time.
pub fn is_stamp(s: Stamp) -> bool
    ensures { result ≡ real_stamp s }
{
    is_date(s.date.year, s.date.month, s.date.day) && is_time(s.hour, s.minute, 0)
}

// A clock without its second.
pub fn stamp_of(c: Clock) -> Stamp
    ensures { result ≡ stamp_of c }
{
    Stamp {
        date: c.date,
        hour: c.time.hour,
        minute: c.time.minute,
    }
}

fn date_of(year: u16, month: u8, day: u8) -> Date
    ensures { result ≡ date_of year month day }
{
    Date { year, month, day }
}

fn time_of(hour: u8, minute: u8, second: u8) -> Time
    ensures { result ≡ time_of hour minute second }
{
    Time {
        hour,
        minute,
        second,
    }
}

// The first of the month after a month; after 2099 comes 2000.
fn next_month(y: u16, m: u8) -> Date
    ensures { result ≡ next_month y m }
{
    if m < 12 {
        return date_of(y, m + 1, 1);
    }
    if y < 2099 {
        return date_of(y + 1, 1, 1);
    }
    date_of(2000, 1, 1)
}

fn next_day(d: Date) -> Date
    ensures { result ≡ next_day d }
{
    if d.day < days_in(d.year, d.month) {
        return Date {
            day: d.day + 1,
            ..d
        };
    }
    next_month(d.year, d.month)
}

// The clock a second later.
pub fn next_second(c: Clock) -> Clock
    ensures { result ≡ next_second c }
{
    let Clock { date, time } = c;
    let Time {
        hour,
        minute,
        second,
    } = time;
    if second < 59 {
        let time = time_of(hour, minute, second + 1);
        return Clock { date, time };
    }
    if minute < 59 {
        let time = time_of(hour, minute + 1, 0);
        return Clock { date, time };
    }
    if hour < 23 {
        let time = time_of(hour + 1, 0, 0);
        return Clock { date, time };
    }
    Clock {
        date: next_day(date),
        time: time_of(0, 0, 0),
    }
}

// The days of a common year before a month. Months of 31 days and of 30 take turns as a product grows, but for the two days that February lacks; a table would be laid on the stack at each look into it.
fn days_before(m: u8) -> u16
    ensures { result ≡ get_or days_before (m - 1) 0 }
{
    let k = m.saturating_sub(1) as u16;
    if k < 2 {
        return k * 31;
    }
    if k < 12 {
        return (k * 367 + 5) / 12 - 2;
    }
    0
}

// One more from March on in a leap year.
fn leap_day(y: u16, m: u8) -> u32
    ensures value { result ≡ cond (leap y && ltb 2 m) 1 0 }
    ensures small { result < 2 }
{
    (is_leap(y) & (2 < m)) as u32
}

// The day of the week: Monday is 0, Saturday 5, Sunday 6.
pub fn day_of_week(d: Date) -> u8
    ensures { result ≡ weekday d }
{
    let k = d.year.saturating_sub(2000) as u32;
    let days = k * 365
        + (k + 3) / 4
        + days_before(d.month) as u32
        + leap_day(d.year, d.month)
        + d.day.saturating_sub(1) as u32;
    ((days + 5) % 7) as u8
}
