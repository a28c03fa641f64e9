// A meter's reply judged by the head: whether it is the right one for the message that was sent.
#![tactic(auto)]

ghost use Rattle.std.specs.Prelude.{◌≡◌, map, ◌≤◌, length};
ghost use Rattle.line.specs.Characters.{seven};
ghost use Rattle.judging.specs.Lines.{ReadsLine};
ghost use Rattle.judging.specs.Right.{identifies, asks_password, accepts, refuses, tells_time, tells_date, tells_clock, tells_serial, tells_account, tells_counter, tells_energy, tells_export, tells_row, tells, answers_in, answers};

use values::TableNo;

// What ends a line of data, and how long the line of the time is.
const CLOSING: [u8; 3] = *b")\r\n";

const TIME_LINE: usize = 17;

// The fixed replies are compared as they come over the line, with their parity.
pub fn is_identification(edition: u8, reply: &[u8]) -> bool
    ensures { result ≡ identifies edition reply.now }
{
    if edition == 2 {
        return text::same(reply, b"\xafZZZ5SUB-VP0\xb2.00\xaa\x8d\n");
    }
    text::same(reply, b"\xafZZZ5SUB-VP0\xb1.00\xaa\x8d\n")
}

pub fn is_password_ask(reply: &[u8]) -> bool
    ensures { result ≡ asks_password reply.now }
{
    text::same(reply, b"\x81P0\x82(0000\xa9\x03\x60")
}

pub fn is_ack(reply: &[u8]) -> bool
    ensures { result ≡ accepts reply.now }
{
    text::same(reply, b"\x06")
}

pub fn is_nak(reply: &[u8]) -> bool
    ensures { result ≡ refuses reply.now }
{
    text::same(reply, b"\x95")
}

// The value of the one line that some data is; it opens with an address and its bracket.
fn line_value<'a>(opening: &[u8], s: &'a [u8]) -> Option<&'a [u8]>
    ensures { ReadsLine opening.now s.now result }
{
    s.strip_prefix(opening)?.strip_suffix(&CLOSING)
}

// The time's line.
// Stays: lines differ in the reader alone; with the reader handed over, each call would owe what its answer says of the definition.
fn tells_time(s: &[u8]) -> bool
    ensures { result ≡ tells_time s.now }
{
    match line_value(b"0.9.1(", s) {
        Some(value) => values::reading::read_time(value).is_some(),
        None => false,
    }
}

// The date's line.
// Stays: as `tells_time`.
fn tells_date(s: &[u8]) -> bool
    ensures { result ≡ tells_date s.now }
{
    match line_value(b"0.9.2(", s) {
        Some(value) => values::reading::read_date(value).is_some(),
        None => false,
    }
}

// Both, in the order of the answer to T().
fn tells_clock(s: &[u8]) -> bool
    ensures { result ≡ tells_clock s.now }
{
    tells_time(text::first(s, TIME_LINE)) & tells_date(text::rest(s, TIME_LINE))
}

// Stays: as `tells_time`.
fn tells_serial(s: &[u8]) -> bool
    ensures { result ≡ tells_serial s.now }
{
    match line_value(b"C.1.0(", s) {
        Some(value) => values::characters::read_serial(value).is_some(),
        None => false,
    }
}

fn tells_account(s: &[u8]) -> bool
    ensures { result ≡ tells_account s.now }
{
    match line_value(b"0.0.0(", s) {
        Some(value) => values::is_account(value),
        None => false,
    }
}

// A counter at an address, as a family shows it.
fn tells_counter(family: u8, opening: &[u8], s: &[u8]) -> bool
    ensures { result ≡ tells_counter family opening.now s.now }
{
    match line_value(opening, s) {
        Some(value) => values::reading::read_counter(value, family).is_some(),
        None => false,
    }
}

// An energy at the address of the one asked; 0 is the total.
fn tells_energy(family: u8, n: u8, s: &[u8]) -> bool
    ensures { result ≡ tells_energy family n s.now }
{
    if family == 0 {
        let mut opening = *b"15.8.0(";
        opening[5] += n % 10;
        return tells_counter(family, &opening, s);
    }
    let mut opening = *b"1.8.0(";
    opening[4] += n % 10;
    tells_counter(family, &opening, s)
}

// The same of what went out.
fn tells_export(family: u8, n: u8, s: &[u8]) -> bool
    ensures { result ≡ tells_export family n s.now }
{
    let mut opening = *b"2.8.0(";
    opening[4] += n % 10;
    tells_counter(family, &opening, s)
}

// A row at the number of the table asked.
fn tells_row(n: u8, s: &[u8]) -> bool
    ensures { result ≡ tells_row n s.now }
{
    let mut opening = *b"131.0.00(";
    opening[6] += n / 10 % 10;
    opening[7] += n % 10;
    match line_value(&opening, s) {
        Some(value) => values::is_row(value),
        None => false,
    }
}

// Just the lines that a read asked for, of a meter of a family: a letter of R1, with its number.
#[tactic(auto, unfolding(crate::specs::Right::tells))]
fn tells_asked(family: u8, letter: u8, n: u8, s: &[u8]) -> bool
    ensures { result ≡ tells family letter n s.now }
{
    match letter {
        b'T' => tells_clock(s),
        b'L' => tells_serial(s),
        b'K' => tells_account(s),
        b'E' => tells_energy(family, n, s),
        b'G' => tells_export(family, n, s),
        b'Z' => tells_row(n, s),
        _ => false,
    }
}

// A block that strips and parts, and whose data is those lines. None of these has more than 64 bytes.
pub fn is_answer(family: u8, letter: u8, n: u8, reply: &[u8]) -> bool
    ensures { result ≡ answers family letter n reply.now }
{
    let mut plain = [0u8; 64];
    match blocks::strip(reply, &mut plain) {
        Ok(length) => is_answer_in(family, letter, n, text::first(&plain, length)),
        Err(_) => false,
    }
}

// The same of a stripped reply.
fn is_answer_in(family: u8, letter: u8, n: u8, s: &[u8]) -> bool
    ensures { result ≡ answers_in family letter n s.now }
{
    match blocks::find(s) {
        Ok(lines) => tells_asked(family, letter, n, lines),
        Err(_) => false,
    }
}
