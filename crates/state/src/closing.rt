// The archive of closed periods: whether it is well-formed, and a period closed.
ghost use Rattle.std.specs.Prelude.{◌≡◌, ◌≤◌, true, cond, ◌&&◌, length, drop};
ghost use Rattle.clock.specs.Seconds.{real_stamp};
ghost use Rattle.state.specs.Sizes.{period_places};
ghost use Rattle.state.specs.WellFormed.{both_below, no_time, unused, every_period, archive_good};
ghost use Rattle.state.specs.Closing.{closed_with, period_of, closing};
ghost use Rattle.state.specs.Making.{no_period, empty_archive};

use crate::setting::with_archive;
use crate::{Archive, Counters, PERIODS, Period, Registers};
use clock::{Clock, Date, Stamp};
use values::family;

// The archive's places, counted in 32 bits: on a small processor a longer number is two.
const PLACES: u32 = PERIODS as u32;

fn no_period() -> Period
    ensures { result ≡ no_period }
{
    Period {
        closed: Stamp {
            date: Date {
                year: 0,
                month: 0,
                day: 0,
            },
            hour: 0,
            minute: 0,
        },
        zones: [0; 4],
        exported: [0; 4],
    }
}

pub fn empty_archive() -> Archive
    ensures { result ≡ empty_archive }
{
    let p = no_period();
    Archive {
        periods: [p; PERIODS],
        count: 0,
    }
}

// Whether its counters are below their ends, those of what went out below their own.
fn both_below(p: Period, end: u32, out: u32) -> bool
    ensures { result ≡ both_below end out p }
{
    crate::four_below(p.zones, end) & crate::four_below(p.exported, out)
}

fn has_no_time(s: Stamp) -> bool
    ensures { result ≡ no_time s }
{
    ((s.date.year == 0) & ((s.date.month == 0) & (s.date.day == 0)))
        & ((s.hour == 0) & (s.minute == 0))
}

// Whether a kept period has a real time, and counters below these ends. A small processor has no registers for them while it looks at the time: they come first.
fn is_kept(p: Period, end: u32, out: u32) -> bool
    ensures { result ≡ (real_stamp p.closed && both_below end out p) }
{
    both_below(p, end, out) && clock::is_stamp(p.closed)
}

fn is_unused(p: Period) -> bool
    ensures { result ≡ unused p }
{
    has_no_time(p.closed) & both_below(p, 1, 1)
}

// Whether an archive is well-formed: the first so many places hold good periods, and those behind them are unused.
pub fn archive_good(a: Archive, family: u8) -> bool
    ensures { result ≡ archive_good family a }
{
    lent_good(&a, family)
}

// The same of an archive that is lent: each place is looked at where it lies, up to the first that is not as it has to be. The ends are asked for once.
pub fn lent_good(a: &Archive, family: u8) -> bool
    ensures { result ≡ archive_good family a.now }
{
    let count = a.count as u32;
    if PLACES < count {
        return false;
    }
    let end = family::counter_end(family);
    let out = family::export_end(family);
    for i in 0..count {
        if !is_kept(a.periods[i as usize], end, out) {
            return false;
        }
    }
    for i in count..PLACES {
        if !is_unused(a.periods[i as usize]) {
            return false;
        }
    }
    true
}

// An archive with one more period.
fn with_period(a: Archive, p: Period) -> Archive
    requires { ((a.count ≤ period_places) × (length a.periods ≡ period_places)) × (every_period unused (drop a.count a.periods) ≡ true) }
    ensures { result ≡ closed_with p a }
{
    let q = a.periods;
    Archive {
        periods: [
            p, q[0], q[1], q[2], q[3], q[4], q[5], q[6], q[7], q[8], q[9], q[10],
        ],
        count: (a.count + 1).min(PERIODS as u8),
    }
}

// An archive with a period closed, at this time and with these counters.
pub fn close_with(a: Archive, clock: Clock, counters: Counters, exported: Counters) -> Archive
    requires { ((a.count ≤ period_places) × (length a.periods ≡ period_places)) × (every_period unused (drop a.count a.periods) ≡ true) }
    ensures { result ≡ closed_with (period_of clock counters exported) a }
{
    let zones = counters.zones;
    let out = exported.zones;
    let p = Period {
        closed: clock::stamp_of(clock),
        zones,
        exported: out,
    };
    with_period(a, p)
}

// The registers with a period closed, at their clock and with their counters.
pub fn close(g: Registers) -> Registers
    requires { archive_good g.facts.decimals g.archive ≡ true }
    ensures { result ≡ closing g }
{
    let a = close_with(g.archive, g.clock, g.counters, g.exported);
    with_archive(g, a)
}
