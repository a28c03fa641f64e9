// Values that both sides of the line share: what a register may hold, the text that shows it, and the text read back.
#![tactic(auto)]

ghost use Rattle.std.specs.Prelude.{◌≡◌, ◌+◌, ◌≤◌, length};
ghost use Rattle.text.specs.Classes.{is_letter};
ghost use Rattle.text.specs.Decimal.{value_of};
ghost use Rattle.values.specs.Edition.{is_edition, tables_of};
ghost use Rattle.values.specs.Registers.{good_digits, is_account_character, good_account, good_row, good_table, good_zone, energy_no};

pub mod characters;
mod counter;
pub mod family;
mod number;
pub mod reading;
pub mod writing;

// A table's number, from 1.
#[derive(Clone, Copy)]
pub struct TableNo(pub u8);

// A zone's number, 1 to 4.
#[derive(Clone, Copy)]
pub struct ZoneNo(pub u8);

// An energy: the total, or a zone's.
// Stays: as an Option the total would be None, and say nothing.
#[derive(Clone, Copy)]
pub enum Energy {
    Total,
    Zone(ZoneNo),
}

// Every meter has room for the rows of so many tables.
pub const TABLE_PLACES: usize = 25;

// How many characters a table's row has, one an hour.
pub const ROW_LENGTH: usize = 24;

// Whether there is such an edition: 1 or 2.
pub fn is_edition(edition: u8) -> bool
    ensures { result ≡ is_edition edition }
{
    (1 <= edition) & (edition <= 2)
}

// How many tables a meter of an edition holds.
pub fn tables_of(edition: u8) -> u8
    ensures value { result ≡ tables_of edition }
    ensures few { (24 ≤ result) × (result ≤ 25) }
{
    match edition {
        2 => 25,
        _ => 24,
    }
}

// The number that stands for an energy in asks and addresses: 0 is the total.
// Stays: the clauses and their theorems name it; `u8::from(e)` would not say which number of an energy.
pub fn energy_no(e: Energy) -> u8
    ensures { result ≡ energy_no e }
{
    match e {
        Energy::Total => 0,
        Energy::Zone(z) => z.0,
    }
}

// What eight digits have in their lanes: the least characters, the bits that those of a lane share, and what a digit has to spare.
const DIGITS: u64 = 0x3030_3030_3030_3030;

const DIGIT_BITS: u64 = 0xF0F0_F0F0_F0F0_F0F0;

const DIGIT_SPARE: u64 = 0x0606_0606_0606_0606;

// Whether a text of eight to sixteen characters is digits: the first eight of them, and the last eight.
fn is_all_digits(s: &[u8]) -> bool
    requires { (8 ≤ length s.now) × (length s.now ≤ 16) }
    ensures { result ≡ good_digits (length s.now) s.now }
{
    let first = eights::keeps_form(eights::eight(s, 0), DIGITS, DIGIT_BITS, DIGIT_SPARE);
    let last = eights::eight(s, s.len() - 8);
    first & eights::keeps_form(last, DIGITS, DIGIT_BITS, DIGIT_SPARE)
}

// Whether a text is so many digits.
pub fn is_digits(s: &[u8], n: usize) -> bool
    ensures { result ≡ good_digits n s.now }
{
    if s.len() != n {
        return false;
    }
    if (8 <= n) & (n <= 16) {
        return is_all_digits(s);
    }
    text::all_between(s, b'0', b'9')
}

fn is_letter(c: u8) -> bool
    ensures { result ≡ is_letter c }
{
    ((b'A' <= c) & (c <= b'Z')) | ((b'a' <= c) & (c <= b'z'))
}

pub fn is_account_character(c: u8) -> bool
    ensures { result ≡ is_account_character c }
{
    (is_letter(c) | ((b'0' <= c) & (c <= b'9'))) | ((c == b' ') | (c == b'_'))
}

// The same where characters are tested one by one: most are letters, and are done with first.
fn account_takes(c: u8) -> bool
    ensures { result ≡ is_account_character c }
{
    if is_letter(c) {
        return true;
    }
    is_account_character(c)
}

// One character after the other, and no further than the first that is none: small processors have no room for ten flags.
pub fn is_account(s: &[u8]) -> bool
    ensures { result ≡ good_account s.now }
{
    if s.len() != 10 {
        return false;
    }
    for c in s {
        if !account_takes(*c) {
            return false;
        }
    }
    true
}

// All ten of them at once: what is read back is good as a rule, and of a loop with one way out a larger processor makes vector code.
pub fn is_whole_account(s: &[u8]) -> bool
    ensures { result ≡ good_account s.now }
{
    if s.len() != 10 {
        return false;
    }
    let mut ok = true;
    for c in s {
        ok &= is_account_character(*c);
    }
    ok
}

pub fn is_row(s: &[u8]) -> bool
    ensures { result ≡ good_row s.now }
{
    (s.len() == ROW_LENGTH) & text::all_between(s, b'1', b'4')
}

pub fn is_table(t: TableNo, tables: u8) -> bool
    ensures { result ≡ good_table tables t.0 }
{
    (1 <= t.0) & (t.0 <= tables)
}

pub fn is_zone(z: ZoneNo) -> bool
    ensures { result ≡ good_zone z.0 }
{
    (1 <= z.0) & (z.0 <= 4)
}
