// What is read of an answer: four quantities, or the code of a status.
ghost use Rattle.std.specs.Prelude.{◌≡◌, ◌+◌, ◌*◌, ◌≤◌, length, get_or};
ghost use Rattle.mercury.specs.Answering.{number_from, quantity_of, quantity_at, energy_of, good_length, read_of, answer_number, answer_code};

// The numbers of request 9: read; a length that no answer has; the CRC; another meter's address; a status.
pub const DONE: u8 = 1;

pub const LENGTH: u8 = 50;

pub const CRC: u8 = 51;

pub const ADDRESS: u8 = 52;

pub const CODE: u8 = 53;

// The lengths of a data answer and of a status answer.
const DATA: usize = 19;

const STATUS: usize = 4;

// The four quantities in the order of the answer: active energy in and out, reactive energy in and out. One that was not measured is none.
#[derive(Clone, Copy, Debug, PartialEq, Eq)]
pub struct Energy {
    pub active_in: Option<u32>,
    pub active_out: Option<u32>,
    pub reactive_in: Option<u32>,
    pub reactive_out: Option<u32>,
}

// Why an answer has no energy: it is not taken, or it is a status.
#[derive(Clone, Copy, Debug, PartialEq, Eq)]
pub enum Refusal {
    WrongLength,
    WrongCrc,
    OtherAddress,
    Status(u8),
}

// A number from its bytes as they come: the second, the first, the fourth and the third, the first being highest.
fn number(second: u8, first: u8, fourth: u8, third: u8) -> u32
    ensures { result ≡ number_from second first fourth third }
{
    u32::from_be_bytes([first, second, third, fourth])
}

// Four bytes of ones are no number.
fn as_quantity(n: u32) -> Option<u32>
    ensures { result ≡ quantity_of n }
{
    if n == u32::MAX { None } else { Some(n) }
}

// The quantity at a place of an answer.
fn quantity_at(s: &[u8], at: usize) -> Option<u32>
    requires { at + 4 ≤ length s.now }
    ensures { result ≡ quantity_at s.now at }
{
    as_quantity(number(s[at], s[at + 1], s[at + 2], s[at + 3]))
}

fn energy_in(s: &[u8]) -> Energy
    requires { 17 ≤ length s.now }
    ensures { result ≡ energy_of s.now }
{
    Energy {
        active_in: quantity_at(s, 1),
        active_out: quantity_at(s, 5),
        reactive_in: quantity_at(s, 9),
        reactive_out: quantity_at(s, 13),
    }
}

// Whether a length is that of a data answer or of a status answer.
fn good_length(n: usize) -> bool
    ensures { result ≡ good_length n }
{
    (n == DATA) | (n == STATUS)
}

// Reads the answer of the meter with an address: its length, its CRC and its address are looked at in this order.
pub fn read(s: &[u8], address: u8) -> Result<Energy, Refusal>
    ensures { result ≡ read_of address s.now }
{
    if !good_length(s.len()) {
        return Err(Refusal::WrongLength);
    }
    if !crc::check(s) {
        return Err(Refusal::WrongCrc);
    }
    if s[0] != address {
        return Err(Refusal::OtherAddress);
    }
    if s.len() == STATUS {
        return Err(Refusal::Status(s[1]));
    }
    Ok(energy_in(s))
}

impl Refusal {
    fn number(self) -> u8
        ensures { result ≡ answer_number (Err self) }
    {
        match self {
            Refusal::WrongLength => LENGTH,
            Refusal::WrongCrc => CRC,
            Refusal::OtherAddress => ADDRESS,
            Refusal::Status(_) => CODE,
        }
    }

    fn code(self) -> u8
        ensures { result ≡ answer_code (Err self) }
    {
        match self {
            Refusal::Status(code) => code,
            Refusal::WrongLength | Refusal::WrongCrc | Refusal::OtherAddress => 0,
        }
    }
}

// The number of an answer.
// Stays: `Result` is not this crate's, so that no method of ours can be on it; the refusal has its own.
pub fn number_of(a: Result<Energy, Refusal>) -> u8
    ensures { result ≡ answer_number a }
{
    match a {
        Ok(_) => DONE,
        Err(refusal) => refusal.number(),
    }
}

// The code of a status; 0 where there is none.
// Stays: as `number_of`.
pub fn code_of(a: Result<Energy, Refusal>) -> u8
    ensures { result ≡ answer_code a }
{
    match a {
        Ok(_) => 0,
        Err(refusal) => refusal.code(),
    }
}
