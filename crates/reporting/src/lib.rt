// All that the delivery of a text to a new meter of an edition says, made in a lent buffer: `1`, a space and the acknowledgements, or for a text that is no post
// `20`, a space and the place; then the meter's rows, a line each.
#![tactic(auto)]

ghost use Rattle.std.specs.Prelude.{◌≡◌, ◌++◌, ◌+◌, ◌*◌, ◌≤◌, length, take, MatchResult};
ghost use Rattle.text.specs.Writing.{stored};
ghost use Rattle.state.specs.WellFormed.{tables_in};
ghost use Rattle.values.specs.Edition.{row_length, table_places};
ghost use Rattle.numerals.specs.Numerals.{number_line, begins_with};
ghost use Rattle.export.specs.Refusals.{answer_number, refusal_number, refusal_place};
ghost use Rattle.reporting.specs.Report.{new_meter, opened_meter, row_lines, ShowsReport};

use clock::{Clock, Date, Time};
use export::Refusal;
use numerals::Shown;
use state::{ALL_ROWS, Facts, Meter};
use values::ROW_LENGTH;

// A meter of an edition, else as the blank one.
fn new_meter(edition: u8) -> Meter
    ensures { result ≡ new_meter edition }
{
    let clock = Clock {
        date: Date {
            year: 2000,
            month: 1,
            day: 1,
        },
        time: Time {
            hour: 0,
            minute: 0,
            second: 0,
        },
    };
    let facts = Facts {
        serial: [b'0'; 10],
        password: [b'0'; 8],
        edition,
        link: 1,
        decimals: 0,
    };
    match state::make(facts, [b' '; 10], clock) {
        Ok(made) => made,
        Err(_) => state::blank(),
    }
}

// A new meter after sign-on, confirmation and its password, with parity.
fn opened(edition: u8) -> Meter
    ensures { result ≡ opened_meter edition }
{
    delivery::feed(
        new_meter(edition),
        b"\xAF?!\x8D\n\x0605\xB1\x8D\n\x81P\xB1\x82(00000000\xA9\x03\xE1",
    )
    .next
}

// Puts each row on a line of its own, and gives the place after them.
fn put_rows(out: &mut [u8], at: usize, rows: &[u8], tables: usize) -> usize
    requires { (at + tables * 25 ≤ length out.old) × (length rows.now ≡ table_places * row_length) × (tables ≤ table_places) }
    ensures next { result ≡ at + tables * 25 }
    ensures held { out.new ≡ stored out.old at (row_lines tables rows.now) }
{
    let mut to = at;
    for i in 0..tables {
        let from = i * ROW_LENGTH;
        let end = from + ROW_LENGTH;
        to = text::put(out, to, &rows[from..end]);
        to = text::put(out, to, b"\n");
    }
    to
}

// The line of the answer and the rows below it, of all tables that a meter has.
fn put_report(out: &mut [u8], number: u8, behind: usize, m: Meter) -> usize
    requires { 667 ≤ length out.old }
    ensures next { result ≡ length (number_line number behind) + tables_in m.registers * 25 }
    ensures held { out.new ≡ stored out.old 0 (number_line number behind ++ row_lines (tables_in m.registers) m.registers.tables) }
    ensures all { length m.registers.tables ≡ table_places * row_length }
{
    let tables = values::tables_of(m.registers.facts.edition) as usize;
    let rows = m.registers.tables;
    let at = numerals::put_line(out, 0, number as u64, behind as u64);
    put_rows(out, at, &rows, tables)
}

pub fn report(edition: u8, text: &[u8], out: &mut [u8]) -> Shown<Refusal>
    requires { 667 ≤ length out.old }
    ensures shows_report { ShowsReport edition text.now out.old (answer_number result.outcome) result.length out.new }
    ensures why { MatchResult result.outcome (λ done. Unit {0}) (λ refusal. begins_with (refusal_number refusal) (refusal_place refusal) out.new) }
    ensures within { (result.length ≤ length out.new) × (result.length ≡ length (take result.length out.new)) }
{
    let before = opened(edition);
    match delivery::deliver(before, text) {
        Ok(fed) => Shown {
            outcome: Ok(()),
            length: put_report(out, 1, fed.acknowledged, fed.next),
        },
        Err(refusal) => Shown {
            outcome: Err(refusal),
            length: put_report(out, refusal.number(), refusal.place(), before),
        },
    }
}
