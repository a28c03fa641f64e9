// Values read back, for C: 1, or 25 with zeros; a buffer under a value's size is kept, with 26.
ghost use Rattle.std.specs.Prelude.{◌≡◌, length};
ghost use Rattle.clock.specs.Seconds.{date_of};
ghost use Rattle.values.specs.Reading.{counter_found, date_read, time_read, stamp_read, energy_read};
ghost use Rattle.values.specs.Serials.{serial_read, account_read, row_read};
ghost use Rattle.headlink.specs.Telling.{value_number, Tells, eqm_told};

use clock::{Date, Stamp, Time};

// What is told where nothing was read.
const NO_DATE: Date = Date {
    year: 0,
    month: 0,
    day: 0,
};

const NO_TIME: Time = Time {
    hour: 0,
    minute: 0,
    second: 0,
};

const NO_STAMP: Stamp = Stamp {
    date: NO_DATE,
    hour: 0,
    minute: 0,
};

pub const SHORT: u8 = 26;

pub const NO_FAMILY: u8 = 18;

fn number(ok: bool) -> u8
    ensures { result ≡ value_number ok }
{
    if ok {
        reading::DONE
    } else {
        reading::MALFORMED
    }
}

// A value's characters at the front of a lent buffer, or the buffer kept where it is shorter than they are.
// Stays: what it gives is what C is handed.
fn tell(out: &mut [u8], ok: bool, characters: &[u8]) -> u8
    ensures { Tells out.old (length characters.now) ok characters.now result out.new }
{
    if out.len() < characters.len() {
        return SHORT;
    }
    text::put(out, 0, characters);
    number(ok)
}

// A serial's ten digits.
#[unsafe(no_mangle)]
pub extern "C" fn dirgemist_head_value_serial(value: &[u8], out: &mut [u8]) -> u8
    ensures { Tells out.old 10 (serial_read value.now).ok (serial_read value.now).serial result out.new }
{
    if values::characters::is_serial(value) {
        let serial = values::characters::digits_of(value);
        return tell(out, true, &serial);
    }
    tell(out, false, &[0u8; 10])
}

// An account's ten characters: copied first, since what is lent might lie within what is written.
#[unsafe(no_mangle)]
pub extern "C" fn dirgemist_head_value_account(value: &[u8], out: &mut [u8]) -> u8
    ensures { Tells out.old 10 (account_read value.now).ok (account_read value.now).account result out.new }
{
    if value.len() != 10 {
        return tell(out, false, &[0u8; 10]);
    }
    let account: [u8; 10] = values::characters::array_of(value);
    if values::is_whole_account(&account) {
        return tell(out, true, &account);
    }
    tell(out, false, &[0u8; 10])
}

// A row's 24 characters.
#[unsafe(no_mangle)]
pub extern "C" fn dirgemist_head_value_row(value: &[u8], out: &mut [u8]) -> u8
    ensures { Tells out.old 24 (row_read value.now).ok (row_read value.now).row result out.new }
{
    if value.len() != values::ROW_LENGTH {
        return tell(out, false, &[0u8; 24]);
    }
    let row: [u8; 24] = values::characters::array_of(value);
    if values::is_row(&row) {
        return tell(out, true, &row);
    }
    tell(out, false, &[0u8; 24])
}

// A date.
#[unsafe(no_mangle)]
pub extern "C" fn dirgemist_head_value_date(
    value: &[u8],
    year: &mut u16,
    month: &mut u8,
    day: &mut u8,
) -> u8
    ensures number { result ≡ value_number (date_read value.now).ok }
    ensures date { record { year = year.exit.now; month = month.new; day = day.new } ≡ (date_read value.now).date }
{
    match values::reading::read_date(value) {
        Some(d) => {
            *year = d.year;
            *month = d.month;
            *day = d.day;
            number(true)
        }
        None => {
            *year = 0;
            *month = 0;
            *day = 0;
            number(false)
        }
    }
}

// A time.
#[unsafe(no_mangle)]
pub extern "C" fn dirgemist_head_value_time(
    value: &[u8],
    hour: &mut u8,
    minute: &mut u8,
    second: &mut u8,
) -> u8
    ensures number { result ≡ value_number (time_read value.now).ok }
    ensures time { record { hour = hour.exit.now; minute = minute.new; second = second.new } ≡ (time_read value.now).time }
{
    let v = values::reading::read_time(value);
    let t = v.unwrap_or(NO_TIME);
    *hour = t.hour;
    *minute = t.minute;
    *second = t.second;
    number(v.is_some())
}

// A closed period's time.
#[unsafe(no_mangle)]
pub extern "C" fn dirgemist_head_value_period(
    value: &[u8],
    year: &mut u16,
    month: &mut u8,
    day: &mut u8,
    hour: &mut u8,
    minute: &mut u8,
) -> u8
    ensures number { result ≡ value_number (stamp_read value.now).ok }
    ensures period { record { date = date_of year.new month.new day.new; hour = hour.new; minute = minute.new } ≡ (stamp_read value.now).stamp }
{
    let v = values::reading::read_stamp(value);
    let t = v.unwrap_or(NO_STAMP);
    *year = t.date.year;
    *month = t.date.month;
    *day = t.date.day;
    *hour = t.hour;
    *minute = t.minute;
    number(v.is_some())
}

// A counter's Wh.
#[unsafe(no_mangle)]
pub extern "C" fn dirgemist_head_value_counter(value: &[u8], wh: &mut u32) -> u8
    ensures number { result ≡ value_number (energy_read 0 value.now).ok }
    ensures wh { wh.new ≡ (energy_read 0 value.now).number }
{
    let v = values::reading::read_counter(value, 0);
    *wh = v.unwrap_or(0);
    number(v.is_some())
}

// What is told of an EQM meter's counter.
// Stays: a record of the clause of the export below, which C's numbers meet field by field.
#[derive(Clone, Copy)]
pub struct Counted {
    pub number: u8,
    pub count: u32,
}

// The decimals are told apart once, and each has its code.
fn read_family(decimals: u8, value: &[u8]) -> Option<u32>
    ensures { counter_found result ≡ energy_read decimals value.now }
{
    match decimals {
        2 => values::reading::read_counter(value, 2),
        3 => values::reading::read_counter(value, 3),
        _ => values::reading::read_counter(value, decimals),
    }
}

fn read_eqm(decimals: u8, value: &[u8]) -> Counted
    ensures { result ≡ eqm_told decimals value.now }
{
    let known = values::family::is_family(decimals) & values::family::is_eqm(decimals);
    if known {
        let v = read_family(decimals, value);
        return Counted {
            number: number(v.is_some()),
            count: v.unwrap_or(0),
        };
    }
    Counted {
        // Stays: the C interface.
        number: NO_FAMILY,
        count: 0,
    }
}

// An EQM meter's counter, in units of its last place; 18 for decimals that no such meter has.
#[unsafe(no_mangle)]
pub extern "C" fn dirgemist_head_value_eqm(decimals: u8, value: &[u8], count: &mut u32) -> u8
    ensures { record { number = result; count = count.new } ≡ eqm_told decimals value.now }
{
    let t = read_eqm(decimals, value);
    *count = t.count;
    t.number
}
