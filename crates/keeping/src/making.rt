// A meter made from lent texts and numbers, as C gives them.
ghost use Rattle.std.specs.Prelude.{◌≡◌};
ghost use Rattle.clock.specs.Seconds.{date_of, time_of};
ghost use Rattle.state.specs.Making.{facts_of, made_of, told};
ghost use Rattle.keeping.specs.Making.{clock_of};

use clock::{Clock, Date, Time};
use state::{Facts, Meter, Refusal};

// Stays: the six numbers travel apart as C's interface has them, up to here.
fn clock_of(year: u16, month: u8, day: u8, hour: u8, minute: u8, second: u8) -> Clock
    ensures { result ≡ clock_of year month day hour minute second }
{
    Clock {
        date: Date { year, month, day },
        time: Time {
            hour,
            minute,
            second,
        },
    }
}

// A text of another length is a bad fact.
fn make_from(
    serial: &[u8],
    account: &[u8],
    password: &[u8],
    clock: Clock,
    edition: u8,
    link: u8,
    decimals: u8,
) -> Result<Meter, Refusal>
    ensures { told result ≡ made_of (facts_of serial.now password.now edition link decimals) account.now clock }
{
    let Ok(serial) = <[u8; 10]>::try_from(serial) else {
        return Err(state::not_made(edition, decimals));
    };
    let Ok(account) = <[u8; 10]>::try_from(account) else {
        return Err(state::not_made(edition, decimals));
    };
    let Ok(password) = <[u8; 8]>::try_from(password) else {
        return Err(state::not_made(edition, decimals));
    };
    let facts = Facts {
        serial,
        password,
        edition,
        link,
        decimals,
    };
    state::make(facts, account, clock)
}

// A new meter, or why there is none.
pub fn make(
    serial: &[u8],
    account: &[u8],
    password: &[u8],
    year: u16,
    month: u8,
    day: u8,
    hour: u8,
    minute: u8,
    second: u8,
    edition: u8,
    link: u8,
    decimals: u8,
) -> Result<Meter, Refusal>
    ensures { told result ≡ made_of (facts_of serial.now password.now edition link decimals) account.now (clock_of year month day hour minute second) }
{
    let clock = clock_of(year, month, day, hour, minute, second);
    make_from(serial, account, password, clock, edition, link, decimals)
}
