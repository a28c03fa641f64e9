// The tariff: the day's table, the hour's zone, a counter after a pulse, and a month that starts.
#![tactic(auto)]

ghost use Rattle.std.specs.Prelude.{◌≡◌, true, ◌-◌, ◌≤◌, ◌<◌};
ghost use Rattle.values.specs.Family.{counter_end, export_end};
ghost use Rattle.state.specs.WellFormed.{family_in, counters_good, archive_good};
ghost use Rattle.tariff.specs.Zones.{own_day, table_for, zone_at, zone_in, grown, counted, counted_in, counted_out};
ghost use Rattle.tariff.specs.Months.{month_starts, month_closed, second_later};

use clock::{Clock, Date};
use state::{Counters, Registers};
use values::{TableNo, ZoneNo, family};

// The day's table: the month's, that of Saturdays, or that of the month's other days.
#[tactic(auto, unfolding(crate::specs::Zones::table_for, crate::specs::Zones::own_day))]
pub fn table_for(edition: u8, d: Date) -> TableNo
    requires { d.month ≤ 12 }
    ensures { result.0 ≡ table_for edition d }
{
    match clock::day_of_week(d) {
        0..=4 => TableNo(d.month),
        5 if edition == 2 => TableNo(25),
        _ => TableNo(12 + d.month),
    }
}

// The zone that the day's table names for the hour; a character below '0' stands for none.
// Stays: a public function keeps its parameters; that the clock is real is said of the whole record.
pub fn zone_at(rows: &[u8], edition: u8, c: Clock) -> ZoneNo
    requires { c.date.month ≤ 12 }
    ensures { result.0 ≡ zone_at rows.now edition c }
{
    let at = state::setting::row_start(table_for(edition, c.date)) + c.time.hour as usize;
    ZoneNo(text::at(rows, at).saturating_sub(b'0'))
}

pub fn zone_in(g: Registers) -> ZoneNo
    requires { g.clock.date.month ≤ 12 }
    ensures { result.0 ≡ zone_in g }
{
    zone_at(&g.tables, g.facts.edition, g.clock)
}

// A counter some units of the last place on; it rolls over at an end. It is seldom there, so a pulse seldom divides.
// Stays: units come as a number from C and were tested by `refuses_pulse`, once for all.
fn grow(counter: u32, units: u32, end: u32) -> u32
    requires { ((counter < end) × (end ≤ 1000000000)) × (units ≤ 1000000) }
    ensures { result ≡ grown end counter units }
{
    let sum = counter + units;
    if sum < end {
        return sum;
    }
    sum % end
}

// The counters after a pulse in a zone, and their total with them.
pub fn count(c: Counters, zone: ZoneNo, units: u32, end: u32) -> Counters
    requires { ((1 ≤ end) × (end ≤ 1000000000)) × ((counters_good end c ≡ true) × (units ≤ 1000000)) }
    ensures { result ≡ counted end c zone.0 units }
{
    let mut next = c;
    let i = state::setting::zone_place(zone);
    if i < 4 {
        next.zones[i] = grow(c.zones[i], units, end);
        next.total = grow(c.total, units, end);
    }
    next
}

// The registers after a pulse of what comes in.
// Stays: a direction is two fields of C's record; as a parameter it would be tested again for each of them.
pub fn count_in(g: Registers, units: u32) -> Registers
    requires { ((g.clock.date.month ≤ 12) × (counters_good (counter_end (family_in g)) g.counters ≡ true)) × (units ≤ 1000000) }
    ensures { result ≡ counted_in g units }
{
    let next = count(
        g.counters,
        zone_in(g),
        units,
        family::counter_end(g.facts.decimals),
    );
    state::setting::with_counters(g, next)
}

// The registers after a pulse of what goes out.
// Stays: as `count_in`.
pub fn count_out(g: Registers, units: u32) -> Registers
    requires { ((g.clock.date.month ≤ 12) × (counters_good (export_end (family_in g)) g.exported ≡ true)) × (units ≤ 1000000) }
    ensures { result ≡ counted_out g units }
{
    let next = count(
        g.exported,
        zone_in(g),
        units,
        family::export_end(g.facts.decimals),
    );
    state::setting::with_exported(g, next)
}

// Whether it is 00:00:00 on the first of a month.
pub fn month_starts(c: Clock) -> bool
    ensures { result ≡ month_starts c }
{
    (c.date.day == 1) & ((c.time.hour == 0) & ((c.time.minute == 0) & (c.time.second == 0)))
}

// A month that starts closes a period.
fn close_month(g: Registers) -> Registers
    requires { archive_good (family_in g) g.archive ≡ true }
    ensures { result ≡ month_closed g }
{
    if month_starts(g.clock) {
        return state::closing::close(g);
    }
    g
}

// The registers a second later.
pub fn second_later(g: Registers) -> Registers
    requires { archive_good (family_in g) g.archive ≡ true }
    ensures { result ≡ second_later g }
{
    close_month(state::setting::with_clock(g, clock::next_second(g.clock)))
}
