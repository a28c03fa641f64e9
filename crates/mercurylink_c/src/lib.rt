// The exports of `mercurylink`, each with its clauses, as the static library that C and Rust link.
#![tactic(auto)]

ghost use Rattle.std.specs.Prelude.{◌≡◌};
ghost use Rattle.crc.specs.Crc.{crc_of};
ghost use Rattle.mercury.specs.Asking.{good_fields, request_of, Asks};
ghost use Rattle.mercury.specs.Answering.{read_of};
ghost use Rattle.mercurylink.specs.Telling.{told_of};

// The request for accumulated energy.
#[unsafe(no_mangle)]
pub extern "C" fn dirgemist_mercury_ask(
    address: u8,
    array: u8,
    month: u8,
    tariff: u8,
    out: &mut [u8],
    size: &mut usize,
) -> u8
    ensures { Asks out.old (good_fields array month tariff) (request_of address array month tariff) (record { number = result; length = size.new }) out.new }
{
    mercurylink::dirgemist_mercury_ask(address, array, month, tariff, out, size)
}

// An answer of the meter with an address.
#[unsafe(no_mangle)]
pub extern "C" fn dirgemist_mercury_read(
    address: u8,
    answer: &[u8],
    status: &mut u8,
    measured: &mut u8,
    active_in: &mut u32,
    active_out: &mut u32,
    reactive_in: &mut u32,
    reactive_out: &mut u32,
) -> u8
    ensures { record { number = result; status = status.new; measured = measured.new; active_in = active_in.new; active_out = active_out.new; reactive_in = reactive_in.new; reactive_out = reactive_out.new } ≡ told_of (read_of address answer.now) }
{
    mercurylink::dirgemist_mercury_read(
        address,
        answer,
        status,
        measured,
        active_in,
        active_out,
        reactive_in,
        reactive_out,
    )
}

// The CRC of a message.
#[unsafe(no_mangle)]
pub extern "C" fn dirgemist_mercury_crc(message: &[u8]) -> u16
    ensures { result ≡ crc_of message.now }
{
    mercurylink::dirgemist_mercury_crc(message)
}
