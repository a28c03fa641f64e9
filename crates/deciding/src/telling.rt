// W1: what is told, a letter and its content in brackets.
ghost use Rattle.std.specs.Prelude.{◌≡◌};
ghost use Rattle.deciding.specs.Verdicts.{verdict_of};
ghost use Rattle.deciding.specs.Telling.{enclosed, inner, clock_told, account_told, table_told, told};

use crate::{Command, Refusal};

// Whether the data are this letter with something in brackets.
fn is_enclosed(letter: u8, d: &[u8]) -> bool
    ensures { result ≡ enclosed letter d.now }
{
    let opened = (text::at(d, 0) == letter) & (text::at(d, 1) == b'(');
    let closed = text::at(d, d.len().saturating_sub(1)) == b')';
    (3 <= d.len()) & (opened & closed)
}

// What stands in the brackets.
fn inside(d: &[u8]) -> &[u8]
    ensures { result.now ≡ inner d.now }
{
    text::first(text::rest(d, 2), d.len().saturating_sub(3))
}

// dd-mm-yyyy;hh:nn:ss
fn clock(x: &[u8]) -> Result<Command, Refusal>
    ensures { verdict_of result ≡ clock_told x.now }
{
    match values::reading::read_clock(x) {
        Some(told) => Ok(Command::WriteClock(told)),
        None => Err(Refusal::BadData),
    }
}

// account; of the two tests the one that a record is not tested by, so that there it is compiled in
fn account(x: &[u8]) -> Result<Command, Refusal>
    ensures { verdict_of result ≡ account_told x.now }
{
    if values::is_whole_account(x) {
        return Ok(Command::WriteAccount);
    }
    Err(Refusal::BadData)
}

// xx;row
fn table(x: &[u8], tables: u8) -> Result<Command, Refusal>
    ensures { verdict_of result ≡ table_told tables x.now }
{
    let good = (text::at(x, 2) == b';') & values::is_row(text::rest(x, 3));
    if !good {
        return Err(Refusal::BadData);
    }
    match values::reading::read_table(text::first(x, 2), tables) {
        Some(named) => Ok(Command::WriteTable(named)),
        None => Err(Refusal::BadData),
    }
}

pub fn tells(d: &[u8], tables: u8) -> Result<Command, Refusal>
    ensures { verdict_of result ≡ told tables d.now }
{
    if is_enclosed(b'T', d) {
        return clock(inside(d));
    }
    if is_enclosed(b'K', d) {
        return account(inside(d));
    }
    if is_enclosed(b'Z', d) {
        return table(inside(d), tables);
    }
    Err(Refusal::BadData)
}
