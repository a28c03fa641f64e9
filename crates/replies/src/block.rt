// The data sets of the data block.
ghost use Rattle.std.specs.Prelude.{◌≡◌, ◌+◌, ◌*◌, ◌<◌, ◌≤◌, length};
ghost use Rattle.text.specs.Writing.{stored};
ghost use Rattle.state.specs.Sizes.{table_places, row_length, period_places};
ghost use Rattle.datasets.specs.Sets.{lines_of};
ghost use Rattle.replies.specs.Plain.{without_archive};
ghost use Rattle.replies.specs.Block.{fact_sets, energy_sets, direction_sets, table_sets, block_sets, block_data};
ghost use Rattle.replies.specs.Periods.{kept_sets, period_sets};

use crate::Plain;
use clock::Clock;
use state::{ALL_ROWS, Counters, Period};
use values::family::is_eqm;
use values::{Energy, ROW_LENGTH, TableNo, ZoneNo};

// Serial, date, time and account.
fn put_facts(
    buf: &mut [u8],
    at: usize,
    serial: &[u8; 10],
    clock: Clock,
    account: &[u8; 10],
) -> usize
    requires { at + 73 ≤ length buf.old }
    ensures next { result ≡ at + 73 }
    ensures held { buf.new ≡ stored buf.old at (lines_of (fact_sets serial.now clock account.now)) }
{
    let a = datasets::put_serial_set(buf, at, serial);
    let b = datasets::put_date_set(buf, a, clock.date);
    let c = datasets::put_time_set(buf, b, clock.time);
    datasets::put_account_set(buf, c, account)
}

// T1 to T4, then the total, of one direction.
fn put_energies(buf: &mut [u8], at: usize, c: Counters, out: bool, family: u8) -> usize
    requires { at + 120 ≤ length buf.old }
    ensures next { result ≡ at + length (lines_of (energy_sets family out c)) }
    ensures held { buf.new ≡ stored buf.old at (lines_of (energy_sets family out c)) }
{
    let zones = c.zones;
    let p = datasets::put_energy_set(buf, at, Energy::Zone(ZoneNo(1)), zones[0], out, family);
    let q = datasets::put_energy_set(buf, p, Energy::Zone(ZoneNo(2)), zones[1], out, family);
    let r = datasets::put_energy_set(buf, q, Energy::Zone(ZoneNo(3)), zones[2], out, family);
    let s = datasets::put_energy_set(buf, r, Energy::Zone(ZoneNo(4)), zones[3], out, family);
    datasets::put_energy_set(buf, s, Energy::Total, c.total, out, family)
}

// What came in, and behind it what went out of an EQM meter.
fn put_directions(
    buf: &mut [u8],
    at: usize,
    counters: Counters,
    exported: Counters,
    family: u8,
) -> usize
    requires { at + 240 ≤ length buf.old }
    ensures next { result ≡ at + length (lines_of (direction_sets family counters exported)) }
    ensures held { buf.new ≡ stored buf.old at (lines_of (direction_sets family counters exported)) }
{
    let a = put_energies(buf, at, counters, false, family);
    if is_eqm(family) {
        return put_energies(buf, a, exported, true, family);
    }
    a
}

// So many tables, from 01 on.
// Stays: a number of tables is an edition's, which public functions take as a number.
fn put_tables(buf: &mut [u8], at: usize, rows: &[u8; ALL_ROWS], tables: u8) -> usize
    requires { (at + tables * 36 ≤ length buf.old) × (tables ≤ table_places) }
    ensures next { result ≡ at + tables * 36 }
    ensures held { buf.new ≡ stored buf.old at (lines_of (table_sets rows.now tables)) }
{
    let mut place = at;
    for i in 0..tables {
        let from = i as usize * ROW_LENGTH;
        let row = &rows[from..from + ROW_LENGTH];
        place = datasets::put_table_set(buf, place, TableNo(i + 1), row);
    }
    place
}

// All of these.
// Stays: as `long_start`, which hands them on.
pub fn put_sets(buf: &mut [u8], at: usize, p: Plain, rows: &[u8; ALL_ROWS], tables: u8) -> usize
    requires { (tables ≤ table_places) × (at + 313 + tables * 36 ≤ length buf.old) }
    ensures next { result ≡ at + length (lines_of (block_sets tables (without_archive p rows.now))) }
    ensures held { buf.new ≡ stored buf.old at (lines_of (block_sets tables (without_archive p rows.now))) }
{
    // What is lent on stands in locals of its own: lent as parts of `p`, all of `p` would be copied.
    let serial = p.facts.serial;
    let account = p.account;
    let a = put_facts(buf, at, &serial, p.clock, &account);
    let b = put_directions(buf, a, p.counters, p.exported, p.facts.decimals);
    put_tables(buf, b, rows, tables)
}

// And the line that ends them.
pub fn put_block(buf: &mut [u8], at: usize, p: Plain, rows: &[u8; ALL_ROWS], tables: u8) -> usize
    requires { (tables ≤ table_places) × (at + 316 + tables * 36 ≤ length buf.old) }
    ensures next { result ≡ at + length (block_data tables (without_archive p rows.now)) }
    ensures held { buf.new ≡ stored buf.old at (block_data tables (without_archive p rows.now)) }
{
    let a = put_sets(buf, at, p, rows, tables);
    text::put(buf, a, b"!\r\n")
}

// T1 to T4 of the period numbered k, of one direction.
fn put_kept(buf: &mut [u8], at: usize, k: u8, zones: [u32; 4], out: bool, family: u8) -> usize
    requires { at + 108 ≤ length buf.old }
    ensures next { result ≡ at + length (lines_of (kept_sets family out k zones)) }
    ensures held { buf.new ≡ stored buf.old at (lines_of (kept_sets family out k zones)) }
{
    let q = datasets::put_kept_set(buf, at, k, ZoneNo(1), zones[0], out, family);
    let r = datasets::put_kept_set(buf, q, k, ZoneNo(2), zones[1], out, family);
    let s = datasets::put_kept_set(buf, r, k, ZoneNo(3), zones[2], out, family);
    datasets::put_kept_set(buf, s, k, ZoneNo(4), zones[3], out, family)
}

// Its time, and these; of an EQM meter both directions'.
pub fn put_period(buf: &mut [u8], at: usize, k: u8, p: Period, family: u8) -> usize
    requires { at + 242 ≤ length buf.old }
    ensures next { result ≡ at + length (lines_of (period_sets family k p)) }
    ensures held { buf.new ≡ stored buf.old at (lines_of (period_sets family k p)) }
{
    let a = datasets::put_closed_set(buf, at, k, p.closed);
    let b = put_kept(buf, a, k, p.zones, false, family);
    if is_eqm(family) {
        return put_kept(buf, b, k, p.exported, true, family);
    }
    b
}
