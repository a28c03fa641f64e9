// A meter's record as a host keeps it: made new, tested when it comes back from flash, its total for a display. Apart from `firmware`,
// so that there the test of the state has one caller and is compiled into it.
#![tactic(auto)]

ghost use Rattle.std.specs.Prelude.{◌≡◌, ℕ, true, MatchResult};
ghost use Rattle.values.specs.Edition.{is_edition};
ghost use Rattle.state.specs.Making.{facts_of, made_of};
ghost use Rattle.keeping.specs.Making.{clock_of};
ghost use Rattle.keeping.specs.Shown.{number_of, checked_by, checked_as, refused_with, shown_by, shown_as};

use state::Meter;

mod making;

// Why a record is not taken: it is of an edition that there is not, or malformed.
#[derive(Clone, Copy, PartialEq, Eq)]
pub enum Refusal {
    NoEdition,
    Malformed,
}

impl Refusal {
    fn number(self) -> u8
        ensures { result ≡ number_of self }
    {
        match self {
            Refusal::NoEdition => 16,
            Refusal::Malformed => 14,
        }
    }
}

// A new meter in the record, whatever stood there.
#[unsafe(no_mangle)]
pub extern "C" fn dirgemist_meter_make(
    m: &mut Meter,
    serial: &[u8],
    account: &[u8],
    password: &[u8],
    year: u16,
    month: u8,
    day: u8,
    hour: u8,
    minute: u8,
    second: u8,
    edition: u8,
    link: u8,
    decimals: u8,
) -> u8
    ensures { (result ≡ (made_of (facts_of serial.now password.now edition link decimals) account.now (clock_of year month day hour minute second)).number)
        × (m.new ≡ (made_of (facts_of serial.now password.now edition link decimals) account.now (clock_of year month day hour minute second)).meter) }
{
    match making::make(
        serial, account, password, year, month, day, hour, minute, second, edition, link, decimals,
    ) {
        Ok(made) => {
            *m = made;
            1
        }
        Err(refusal) => {
            *m = state::blank();
            refusal.number()
        }
    }
}

// The test of a record, from its edition and from whether it is well-formed: a record is too long to be handed on.
fn check(edition: u8, formed: bool) -> Result<(), Refusal>
    ensures { MatchResult result (λ _. (is_edition edition ≡ true) × (formed ≡ true))
        (λ e. (checked_by edition formed ≡ number_of e) × ((total : ℕ) → shown_by edition formed total ≡ refused_with e)) }
{
    if !values::is_edition(edition) {
        return Err(Refusal::NoEdition);
    }
    if formed {
        return Ok(());
    }
    Err(Refusal::Malformed)
}

// Whether the record is well-formed.
#[unsafe(no_mangle)]
pub extern "C" fn dirgemist_meter_check(m: &Meter) -> u8
    ensures { result ≡ checked_as m.now }
{
    let formed = lent::is_formed(m);
    match check(m.registers.facts.edition, formed) {
        Ok(()) => 1,
        Err(refusal) => refusal.number(),
    }
}

// The total for a display, from a record that is only read. Nothing is added up on its way but for the check.
#[unsafe(no_mangle)]
pub extern "C" fn dirgemist_meter_total(m: &Meter, total: &mut u32) -> u8
    ensures { (result ≡ (shown_as m.now).number) × (total.new ≡ (shown_as m.now).total) }
{
    let formed = lent::is_formed(m);
    match check(m.registers.facts.edition, formed) {
        Ok(()) => {
            *total = m.registers.counters.total;
            1
        }
        Err(refusal) => {
            *total = 0;
            refusal.number()
        }
    }
}
