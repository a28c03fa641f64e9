// The exports of `keeping`, each with its clauses, as the static library that C and Rust link.
#![tactic(auto)]

ghost use Rattle.std.specs.Prelude.{◌≡◌};
ghost use Rattle.state.specs.Making.{facts_of, made_of};
ghost use Rattle.keeping.specs.Making.{clock_of};
ghost use Rattle.keeping.specs.Shown.{checked_as, shown_as};

use state::Meter;

// A new meter in the record, whatever stood there.
#[unsafe(no_mangle)]
pub extern "C" fn dirgemist_meter_make(
    m: &mut Meter,
    serial: &[u8],
    account: &[u8],
    password: &[u8],
    year: u16,
    month: u8,
    day: u8,
    hour: u8,
    minute: u8,
    second: u8,
    edition: u8,
    link: u8,
    decimals: u8,
) -> u8
    ensures { (result ≡ (made_of (facts_of serial.now password.now edition link decimals) account.now (clock_of year month day hour minute second)).number)
        × (m.new ≡ (made_of (facts_of serial.now password.now edition link decimals) account.now (clock_of year month day hour minute second)).meter) }
{
    keeping::dirgemist_meter_make(
        m, serial, account, password, year, month, day, hour, minute, second, edition, link,
        decimals,
    )
}

// Whether the record is well-formed.
#[unsafe(no_mangle)]
pub extern "C" fn dirgemist_meter_check(m: &Meter) -> u8
    ensures { result ≡ checked_as m.now }
{
    keeping::dirgemist_meter_check(m)
}

// The total for a display, from a record that is only read. Nothing is added up on its way but for the check.
#[unsafe(no_mangle)]
pub extern "C" fn dirgemist_meter_total(m: &Meter, total: &mut u32) -> u8
    ensures { (result ≡ (shown_as m.now).number) × (total.new ≡ (shown_as m.now).total) }
{
    keeping::dirgemist_meter_total(m, total)
}
