// Values read back, for C: 1, or 25 with zeros; a buffer under a value's size is kept, with 26.
ghost use Rattle.std.specs.Prelude.{◌≡◌};
ghost use Rattle.clock.specs.Seconds.{date_of};
ghost use Rattle.values.specs.Reading.{date_read, time_read, stamp_read, energy_read};
ghost use Rattle.values.specs.Serials.{serial_read, account_read, row_read};
ghost use Rattle.headlink.specs.Telling.{value_number, Tells, eqm_told};

// A serial's ten digits.
#[unsafe(no_mangle)]
pub extern "C" fn dirgemist_head_value_serial(value: &[u8], out: &mut [u8]) -> u8
    ensures { Tells out.old 10 (serial_read value.now).ok (serial_read value.now).serial result out.new }
{
    headlink::fields::dirgemist_head_value_serial(value, out)
}

// An account's ten characters: copied first, since what is lent might lie within what is written.
#[unsafe(no_mangle)]
pub extern "C" fn dirgemist_head_value_account(value: &[u8], out: &mut [u8]) -> u8
    ensures { Tells out.old 10 (account_read value.now).ok (account_read value.now).account result out.new }
{
    headlink::fields::dirgemist_head_value_account(value, out)
}

// A row's 24 characters.
#[unsafe(no_mangle)]
pub extern "C" fn dirgemist_head_value_row(value: &[u8], out: &mut [u8]) -> u8
    ensures { Tells out.old 24 (row_read value.now).ok (row_read value.now).row result out.new }
{
    headlink::fields::dirgemist_head_value_row(value, out)
}

// A date.
#[unsafe(no_mangle)]
pub extern "C" fn dirgemist_head_value_date(
    value: &[u8],
    year: &mut u16,
    month: &mut u8,
    day: &mut u8,
) -> u8
    ensures number { result ≡ value_number (date_read value.now).ok }
    ensures date { record { year = year.exit.now; month = month.new; day = day.new } ≡ (date_read value.now).date }
{
    headlink::fields::dirgemist_head_value_date(value, year, month, day)
}

// A time.
#[unsafe(no_mangle)]
pub extern "C" fn dirgemist_head_value_time(
    value: &[u8],
    hour: &mut u8,
    minute: &mut u8,
    second: &mut u8,
) -> u8
    ensures number { result ≡ value_number (time_read value.now).ok }
    ensures time { record { hour = hour.exit.now; minute = minute.new; second = second.new } ≡ (time_read value.now).time }
{
    headlink::fields::dirgemist_head_value_time(value, hour, minute, second)
}

// A closed period's time.
#[unsafe(no_mangle)]
pub extern "C" fn dirgemist_head_value_period(
    value: &[u8],
    year: &mut u16,
    month: &mut u8,
    day: &mut u8,
    hour: &mut u8,
    minute: &mut u8,
) -> u8
    ensures number { result ≡ value_number (stamp_read value.now).ok }
    ensures period { record { date = date_of year.new month.new day.new; hour = hour.new; minute = minute.new } ≡ (stamp_read value.now).stamp }
{
    headlink::fields::dirgemist_head_value_period(value, year, month, day, hour, minute)
}

// A counter's Wh.
#[unsafe(no_mangle)]
pub extern "C" fn dirgemist_head_value_counter(value: &[u8], wh: &mut u32) -> u8
    ensures number { result ≡ value_number (energy_read 0 value.now).ok }
    ensures wh { wh.new ≡ (energy_read 0 value.now).number }
{
    headlink::fields::dirgemist_head_value_counter(value, wh)
}

// An EQM meter's counter, in units of its last place; 18 for decimals that no such meter has.
#[unsafe(no_mangle)]
pub extern "C" fn dirgemist_head_value_eqm(decimals: u8, value: &[u8], count: &mut u32) -> u8
    ensures { record { number = result; count = count.new } ≡ eqm_told decimals value.now }
{
    headlink::fields::dirgemist_head_value_eqm(decimals, value, count)
}
