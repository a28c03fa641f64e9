// The request: address, code, array and month in one byte, tariff, CRC.
ghost use Rattle.std.specs.Prelude.{◌≡◌, ◌+◌, ◌*◌, ◌≤◌};
ghost use Rattle.mercury.specs.Asking.{good_fields, request_of, told, Asks};

// The answers of request 9: built; a field out of its range; a buffer that is too short.
pub const DONE: u8 = 1;

pub const FIELD: u8 = 54;

pub const SHORT: u8 = 55;

// The code of the request, and its length.
const ENERGY: u8 = 5;

pub const LENGTH: usize = 6;

// Why no request is built: a field is out of its range, or the buffer is too short.
#[derive(Clone, Copy, Debug, PartialEq, Eq)]
pub enum Refusal {
    Field,
    Short,
}

// Whether array, month and tariff lie within their ranges: a month goes with the arrays of months, 3 and B hex, and with no other.
fn in_range(array: u8, month: u8, tariff: u8) -> bool
    ensures { result ≡ good_fields array month tariff }
{
    let ranged = (array <= 5) | ((9 <= array) & (array <= 13));
    let monthly = (array == 3) | (array == 11);
    let dated = (monthly & ((1 <= month) & (month <= 12))) | (!monthly & (month == 0));
    ranged & (dated & (tariff <= 4))
}

// The six bytes.
fn request(address: u8, array: u8, month: u8, tariff: u8) -> [u8; 6]
    requires { (array ≤ 15) × (month ≤ 15) }
    ensures { result ≡ request_of address array month tariff }
{
    let both = array * 16 + month;
    let fields = [address, ENERGY, both, tariff];
    let [low, high] = crc::crc(&fields).to_le_bytes();
    [address, ENERGY, both, tariff, low, high]
}

// Builds the request for accumulated energy and gives its length, or writes nothing.
pub fn ask(out: &mut [u8], address: u8, array: u8, month: u8, tariff: u8) -> Result<usize, Refusal>
    ensures { Asks out.old (good_fields array month tariff) (request_of address array month tariff) (told result) out.new }
{
    if !in_range(array, month, tariff) {
        return Err(Refusal::Field);
    }
    if out.len() < LENGTH {
        return Err(Refusal::Short);
    }
    let bytes = request(address, array, month, tariff);
    text::put(out, 0, &bytes);
    Ok(LENGTH)
}
