// The Mercury family for C: the request built, an answer read, and the CRC by itself.
#![tactic(auto)]

ghost use Rattle.std.specs.Prelude.{◌≡◌};
ghost use Rattle.crc.specs.Crc.{crc_of};
ghost use Rattle.mercury.specs.Asking.{good_fields, request_of, Asks};
ghost use Rattle.mercury.specs.Answering.{read_of};
ghost use Rattle.mercurylink.specs.Telling.{flag_of, told_energy, told_of};

use mercury::answering::Energy;
use mercury::asking::Refusal;

// What is told of an answer without energy.
const NONE: Energy = Energy {
    active_in: None,
    active_out: None,
    reactive_in: None,
    reactive_out: None,
};

// The bit of a quantity where it was measured.
fn flag(q: Option<u32>, bit: u8) -> u8
    ensures { result ≡ flag_of q bit }
{
    match q {
        Some(_) => bit,
        None => 0,
    }
}

fn flags(e: Energy) -> u8
    ensures { result ≡ (told_energy e).measured }
{
    (flag(e.active_in, 1) | flag(e.active_out, 2))
        | (flag(e.reactive_in, 4) | flag(e.reactive_out, 8))
}

// The request for accumulated energy.
#[unsafe(no_mangle)]
pub extern "C" fn dirgemist_mercury_ask(
    address: u8,
    array: u8,
    month: u8,
    tariff: u8,
    out: &mut [u8],
    size: &mut usize,
) -> u8
    ensures { Asks out.old (good_fields array month tariff) (request_of address array month tariff) (record { number = result; length = size.new }) out.new }
{
    let (number, length) = match mercury::asking::ask(out, address, array, month, tariff) {
        Ok(length) => (mercury::asking::DONE, length),
        Err(Refusal::Field) => (mercury::asking::FIELD, 0),
        Err(Refusal::Short) => (mercury::asking::SHORT, 0),
    };
    *size = length;
    number
}

// An answer of the meter with an address.
#[unsafe(no_mangle)]
pub extern "C" fn dirgemist_mercury_read(
    address: u8,
    answer: &[u8],
    status: &mut u8,
    measured: &mut u8,
    active_in: &mut u32,
    active_out: &mut u32,
    reactive_in: &mut u32,
    reactive_out: &mut u32,
) -> u8
    ensures { record { number = result; status = status.new; measured = measured.new; active_in = active_in.new; active_out = active_out.new; reactive_in = reactive_in.new; reactive_out = reactive_out.new } ≡ told_of (read_of address answer.now) }
{
    let read = mercury::answering::read(answer, address);
    let e = read.unwrap_or(NONE);
    *status = mercury::answering::code_of(read);
    *measured = flags(e);
    *active_in = e.active_in.unwrap_or(0);
    *active_out = e.active_out.unwrap_or(0);
    *reactive_in = e.reactive_in.unwrap_or(0);
    *reactive_out = e.reactive_out.unwrap_or(0);
    mercury::answering::number_of(read)
}

// The CRC of a message.
#[unsafe(no_mangle)]
pub extern "C" fn dirgemist_mercury_crc(message: &[u8]) -> u16
    ensures { result ≡ crc_of message.now }
{
    crc::crc(message)
}
