// Deciding a frame: from the held characters, the mark and the BCC to what the meter does, or why it is refused.
#![tactic(auto)]

ghost use Rattle.std.specs.Prelude.{◌≡◌};
ghost use Rattle.deciding.specs.Shape.{bare_shape, framed_shape, content};
ghost use Rattle.deciding.specs.Asking.{table_asked, energy_named, energy_meant, energy_asked, asked};
ghost use Rattle.deciding.specs.Telling.{enclosed, inner, clock_told, account_told, table_told, told};
ghost use Rattle.deciding.specs.Verdicts.{number_of, verdict_of};
ghost use Rattle.deciding.specs.Verdict.{entry, bare_verdict, framed_verdict, shape_verdict, verdict};

use clock::Clock;
use replies::Ask;
use values::TableNo;

mod asking;
mod shape;
mod telling;

// What a meter is told or asked by a whole frame.
#[derive(Clone, Copy)]
pub enum Command {
    // B0
    Leave,
    // P1 ()
    Enter,
    // P1 with eight digits
    Password,
    // R1
    Read(Ask),
    // W1
    WriteClock(Clock),
    WriteAccount,
    WriteTable(TableNo),
}

// Why a frame is refused, in the order of document 01's numbers. Three of them are for the meter to tell: here no frame is too long, and no password looked at.
#[derive(Clone, Copy)]
pub enum Refusal {
    // A character was damaged.
    Damaged,
    // Its BCC is another.
    BadSum,
    // It doesn't end.
    TooLong,
    // It has no frame's shape.
    NoFrame,
    // Its command is none of ours.
    Unknown,
    // It is, but not in this mode.
    NotAllowed,
    // Its data are none that the command takes.
    BadData,
    WrongPassword,
    // After too many of them.
    LockedOut,
}

impl Refusal {
    // Document 01's number.
    #[tactic(auto, unfolding(crate::specs::Verdicts::number_of))]
    pub fn number(self) -> u8
        ensures { result ≡ number_of self }
    {
        match self {
            Refusal::Damaged => 3,
            Refusal::BadSum => 4,
            Refusal::TooLong => 5,
            Refusal::NoFrame => 6,
            Refusal::Unknown => 7,
            Refusal::NotAllowed => 8,
            Refusal::BadData => 9,
            Refusal::WrongPassword => 10,
            Refusal::LockedOut => 11,
        }
    }
}

// P1: `()`, or eight digits in brackets.
fn enters(d: &[u8]) -> Result<Command, Refusal>
    ensures { verdict_of result ≡ entry d.now }
{
    if text::same(d, b"()") {
        return Ok(Command::Enter);
    }
    if text::has_form(b"(########)", d) {
        return Ok(Command::Password);
    }
    Err(Refusal::BadData)
}

// A frame without STX: only B0 is known, and it is allowed in modes 2 to 4.
fn bare(mode: u8, a: u8, b: u8) -> Result<Command, Refusal>
    ensures { verdict_of result ≡ bare_verdict mode a b }
{
    match (a, b, mode) {
        (b'B', b'0', 2..=4) => Ok(Command::Leave),
        (b'B', b'0', _) => Err(Refusal::NotAllowed),
        _ => Err(Refusal::Unknown),
    }
}

// A frame with STX: P1, R1 and W1 are known, each allowed in its modes.
fn framed(tables: u8, family: u8, mode: u8, a: u8, b: u8, d: &[u8]) -> Result<Command, Refusal>
    ensures { verdict_of result ≡ framed_verdict tables family mode a b d.now }
{
    match (a, b, mode) {
        (b'P', b'1', 2) => enters(d),
        (b'R', b'1', 3 | 4) => asking::asks(d, tables, family),
        (b'W', b'1', 4) => telling::tells(d, tables),
        (b'P' | b'R' | b'W', b'1', _) => Err(Refusal::NotAllowed),
        _ => Err(Refusal::Unknown),
    }
}

fn by_shape(tables: u8, family: u8, mode: u8, h: &[u8]) -> Result<Command, Refusal>
    ensures { verdict_of result ≡ shape_verdict tables family mode h.now }
{
    if shape::is_bare(h) {
        return bare(mode, text::at(h, 1), text::at(h, 2));
    }
    if shape::is_framed(h) {
        return framed(
            tables,
            family,
            mode,
            text::at(h, 1),
            text::at(h, 2),
            shape::content_of(h),
        );
    }
    Err(Refusal::NoFrame)
}

// What a whole frame comes to, of a meter with so many tables and of a family: its held characters through ETX, whether any was damaged, and its BCC.
pub fn decide(
    tables: u8,
    family: u8,
    mode: u8,
    h: &[u8],
    mark: bool,
    sum: u8,
) -> Result<Command, Refusal>
    ensures { verdict_of result ≡ verdict tables family mode h.now mark sum }
{
    if mark {
        return Err(Refusal::Damaged);
    }
    if sum == line::bcc(text::rest(h, 1)) {
        return by_shape(tables, family, mode, h);
    }
    Err(Refusal::BadSum)
}
