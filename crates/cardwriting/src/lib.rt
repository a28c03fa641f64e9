// A card written from a state: the account, and all of the tables.
#![tactic(auto)]

ghost use Rattle.std.specs.Prelude.{◌≡◌, ◌+◌, ◌*◌, ◌<◌, ◌≤◌, length};
ghost use Rattle.text.specs.Writing.{stored};
ghost use Rattle.values.specs.Edition.{row_length};
ghost use Rattle.card.specs.Grammar.{table_field, table_fields, card_text};
ghost use Rattle.cardwriting.specs.Writing.{entry_at, entries_from, written_in, written_to, refusal_number, told};

use state::{ALL_ROWS, Meter};
use values::ROW_LENGTH;

// Why there is no card: no such edition, a malformed state, a buffer that is too short.
#[derive(Clone, Copy, Debug, PartialEq, Eq)]
pub enum Refusal {
    NoEdition,
    Malformed,
    NoRoom,
}

impl Refusal {
    // Document 01's number: 16, 14 or 41.
    pub fn number(self) -> u8
        ensures { result ≡ refusal_number self }
    {
        match self {
            Refusal::NoEdition => 16,
            Refusal::Malformed => 14,
            Refusal::NoRoom => 41,
        }
    }
}

// Puts a table's field in its place, the first of them being 0.
// Stays: how many tables fit is said where they are counted; a type for it would be made by the one caller and taken apart at once.
fn put_field(out: &mut [u8], rows: &[u8], i: usize)
    requires { (i < 255) × (row_length * i + row_length ≤ length rows.now) × (13 + 28 * i + 28 ≤ length out.old) }
    ensures { out.new ≡ stored out.old (13 + 28 * i) (table_field (entry_at rows.now (i + 1))) }
{
    let number = ((i + 1) % 256) as u8;
    let row = ROW_LENGTH * i;
    let end = row + ROW_LENGTH;
    let at = text::put(out, 13 + 28 * i, &[2, 0, 25, number]);
    text::put(out, at, &rows[row..end]);
}

// Puts the fields of so many tables behind the account's.
// Stays: as `put_field`.
fn put_fields(out: &mut [u8], rows: &[u8], tables: usize)
    requires { (tables ≤ 255) × (row_length * tables ≤ length rows.now) × (13 + 28 * tables ≤ length out.old) }
    ensures { out.new ≡ stored out.old 13 (table_fields (entries_from 0 tables rows.now)) }
{
    for i in 0..tables {
        put_field(out, rows, i);
    }
}

// Puts the account's field, and those of so many tables.
fn put_card(out: &mut [u8], account: &[u8], rows: &[u8], tables: usize)
    requires { (length account.now ≡ 10) × (tables ≤ 255) × (row_length * tables ≤ length rows.now) × (13 + 28 * tables ≤ length out.old) }
    ensures { out.new ≡ stored out.old 0 (card_text account.now (entries_from 0 tables rows.now)) }
{
    let at = text::put(out, 0, &[1, 0, 10]);
    text::put(out, at, account);
    put_fields(out, rows, tables);
}

// The same of arrays, which are lent here and not out of the state.
fn put_own(out: &mut [u8], account: [u8; 10], rows: [u8; ALL_ROWS], tables: usize)
    requires { (length account ≡ 10) × (tables ≤ 255) × (row_length * tables ≤ length rows) × (13 + 28 * tables ≤ length out.old) }
    ensures { out.new ≡ stored out.old 0 (card_text account (entries_from 0 tables rows)) }
{
    put_card(out, &account, &rows, tables);
}

// The card of a state and how long it is, or why there is none; a refusal leaves the buffer as it was.
pub fn write(m: Meter, out: &mut [u8]) -> Result<usize, Refusal>
    ensures { (told result ≡ written_in m out.old) × (out.new ≡ written_to m out.old) }
{
    if !state::has_edition(m) {
        return Err(Refusal::NoEdition);
    }
    if !state::is_well_formed(m) {
        return Err(Refusal::Malformed);
    }
    let g = m.registers;
    let tables = values::tables_of(g.facts.edition) as usize;
    let length = 13 + 28 * tables;
    if out.len() < length {
        return Err(Refusal::NoRoom);
    }
    put_own(out, g.account, g.tables, tables);
    Ok(length)
}
