// The data sets that R1 asks for.
ghost use Rattle.std.specs.Prelude.{◌≡◌, [], ◌∷◌, ◌+◌, ◌≤◌, length};
ghost use Rattle.text.specs.Writing.{stored};
ghost use Rattle.datasets.specs.Sets.{line_of, lines_of, time_set, date_set, table_set};
ghost use Rattle.replies.specs.Plain.{without_archive};
ghost use Rattle.replies.specs.Shown.{energy, row_of};
ghost use Rattle.replies.specs.Answers.{asked_data};

use crate::{Ask, Plain};
use clock::Clock;
use state::setting::row_start;
use state::{ALL_ROWS, Counters};
use values::{Energy, ROW_LENGTH, TableNo};

// The total, or the counter of a zone.
fn energy_of(c: Counters, e: Energy) -> u32
    ensures { result ≡ energy c e }
{
    match e {
        Energy::Total => c.total,
        Energy::Zone(z) => state::setting::counter_of(c, z),
    }
}

// The row of a table.
fn row_of(rows: &[u8], t: TableNo) -> &[u8]
    ensures { result.now ≡ row_of rows.now t.0 }
{
    text::first(text::rest(rows, row_start(t)), ROW_LENGTH)
}

// The time, then the date.
fn put_clock_sets(buf: &mut [u8], at: usize, c: Clock) -> usize
    requires { at + 34 ≤ length buf.old }
    ensures next { result ≡ at + 34 }
    ensures held { buf.new ≡ stored buf.old at (lines_of (time_set c.time ∷ date_set c.date ∷ [])) }
{
    let a = datasets::put_time_set(buf, at, c.time);
    datasets::put_date_set(buf, a, c.date)
}

// The row of a table that was asked for.
fn put_asked_table(buf: &mut [u8], at: usize, rows: &[u8], t: TableNo) -> usize
    requires { at + 36 ≤ length buf.old }
    ensures next { result ≡ at + 12 + length (row_of rows.now t.0) }
    ensures held { buf.new ≡ stored buf.old at (line_of (table_set t.0 (row_of rows.now t.0))) }
{
    let row = row_of(rows, t);
    datasets::put_table_set(buf, at, t, row)
}

// The data that R1 asks for.
pub fn put_asked(buf: &mut [u8], at: usize, p: Plain, rows: &[u8; ALL_ROWS], a: Ask) -> usize
    requires { at + 36 ≤ length buf.old }
    ensures next { result ≡ at + length (asked_data (without_archive p rows.now) a) }
    ensures held { buf.new ≡ stored buf.old at (asked_data (without_archive p rows.now) a) }
{
    match a {
        Ask::Clock => put_clock_sets(buf, at, p.clock),
        // What is lent on stands in a local of its own: lent as a part of `p`, all of `p` would be copied.
        Ask::Serial => {
            let serial = p.facts.serial;
            datasets::put_serial_set(buf, at, &serial)
        }
        Ask::Account => {
            let account = p.account;
            datasets::put_account_set(buf, at, &account)
        }
        Ask::Energy(e) => {
            let n = energy_of(p.counters, e);
            datasets::put_energy_set(buf, at, e, n, false, p.facts.decimals)
        }
        Ask::Export(e) => {
            let n = energy_of(p.exported, e);
            datasets::put_energy_set(buf, at, e, n, true, p.facts.decimals)
        }
        Ask::Table(t) => put_asked_table(buf, at, rows, t),
    }
}
