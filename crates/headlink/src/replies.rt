// Replies, for C: parity stripped, the part of a block, its data sets one by one, and one of them by its address.
ghost use Rattle.std.specs.Prelude.{◌≡◌};
ghost use Rattle.blocks.specs.Stripping.{Strips};
ghost use Rattle.blocks.specs.Parts.{part_of};
ghost use Rattle.reading.specs.Sets.{set_told, set_read};
ghost use Rattle.reader.specs.Walking.{set_after};
ghost use Rattle.finding.specs.Finding.{lookup};

use finding::Missed;
use reading::{Extent, Malformed};

// A part starts behind STX.
const PART: usize = 1;

// Strips a reply's parity into a second buffer; with 24 the place of the first damaged byte.
#[unsafe(no_mangle)]
pub extern "C" fn dirgemist_head_strip(
    reply: &[u8],
    out: &mut [u8],
    size: &mut usize,
    place: &mut usize,
) -> u8
    ensures { Strips reply.now out.old (record { number = result; length = size.new; place = place.new }) out.new }
{
    match blocks::strip(reply, out) {
        Ok(n) => {
            *size = n;
            *place = 0;
            reading::DONE
        }
        Err(refusal) => {
            *size = 0;
            *place = refusal.place();
            refusal.number()
        }
    }
}

// Where the part of a stripped block starts, and its length.
#[unsafe(no_mangle)]
pub extern "C" fn dirgemist_head_part(stripped: &[u8], start: &mut usize, size: &mut usize) -> u8
    ensures { record { number = result; start = start.new; length = size.new } ≡ part_of stripped.now }
{
    match blocks::find(stripped) {
        Ok(part) => {
            *start = PART;
            *size = part.len();
            reading::DONE
        }
        Err(refusal) => {
            *start = 0;
            *size = 0;
            refusal.number()
        }
    }
}

// What was read at a place, number by number; at the end and at a malformed set a reader stays.
fn tell_set(
    set: Result<Option<Extent>, Malformed>,
    at: usize,
    address: &mut usize,
    value: &mut usize,
    next: &mut usize,
    place: &mut usize,
) -> u8
    ensures { record { number = result; address_length = address.new; value_length = value.new; next = next.new; place = place.new } ≡ set_told at set }
{
    *address = 0;
    *value = 0;
    *place = 0;
    match set {
        Ok(Some(set)) => {
            *address = set.address_length;
            *value = set.value_length;
            *next = set.next;
            reading::DONE
        }
        Ok(None) => {
            *next = at;
            reading::END
        }
        Err(set) => {
            *next = set.place;
            *place = set.place;
            reading::MALFORMED
        }
    }
}

// The data set at a place: the lengths of its address and its value, the place after it, and where it is malformed its place.
#[unsafe(no_mangle)]
pub extern "C" fn dirgemist_head_next(
    sets: &[u8],
    at: usize,
    address: &mut usize,
    value: &mut usize,
    next: &mut usize,
    place: &mut usize,
) -> u8
    ensures { record { number = result; address_length = address.new; value_length = value.new; next = next.new; place = place.new } ≡ set_read sets.now at }
{
    tell_set(reading::next_set(sets, at), at, address, value, next, place)
}

// What a reader answers after so many sets: where it was read, and the same of it.
#[unsafe(no_mangle)]
pub extern "C" fn dirgemist_head_set_after(
    sets: &[u8],
    count: usize,
    start: &mut usize,
    address: &mut usize,
    value: &mut usize,
    next: &mut usize,
    place: &mut usize,
) -> u8
    ensures { record { start = start.exit.now; set = record { number = result; address_length = address.new; value_length = value.new; next = next.new; place = place.new } } ≡ set_after sets.now count }
{
    let reached = reader::set_after(sets, count);
    *start = reached.start;
    tell_set(reached.set, reached.start, address, value, next, place)
}

// The first data set with an address: how many sets were read, the place of a malformed one before any match, and where its address and its value stand.
#[unsafe(no_mangle)]
pub extern "C" fn dirgemist_head_find(
    sets: &[u8],
    address: &[u8],
    count: &mut usize,
    place: &mut usize,
    address_start: &mut usize,
    address_length: &mut usize,
    value_start: &mut usize,
    value_length: &mut usize,
) -> u8
    ensures { record { number = result; count = count.new; place = place.new; address_start = address_start.new; address_length = address_length.new; value_start = value_start.new; value_length = value_length.new } ≡ lookup sets.now address.now }
{
    *place = 0;
    *address_start = 0;
    *address_length = 0;
    *value_start = 0;
    *value_length = 0;
    match finding::find(sets, address) {
        Ok(set) => {
            *count = set.count;
            *address_start = set.address_start;
            *address_length = set.address_length;
            *value_start = set.value_start;
            *value_length = set.value_length;
            reading::DONE
        }
        Err(
            Missed::Malformed {
                count: read,
                place: at,
            },
        ) => {
            *count = read;
            *place = at;
            reading::MALFORMED
        }
        Err(Missed::Missing { count: read }) => {
            *count = read;
            finding::MISSING
        }
    }
}
