// Replies, for C: parity stripped, the part of a block, its data sets one by one, and one of them by its address.
ghost use Rattle.std.specs.Prelude.{◌≡◌};
ghost use Rattle.blocks.specs.Stripping.{Strips};
ghost use Rattle.blocks.specs.Parts.{part_of};
ghost use Rattle.reading.specs.Sets.{set_read};
ghost use Rattle.reader.specs.Walking.{set_after};
ghost use Rattle.finding.specs.Finding.{lookup};

// Strips a reply's parity into a second buffer; with 24 the place of the first damaged byte.
#[unsafe(no_mangle)]
pub extern "C" fn dirgemist_head_strip(
    reply: &[u8],
    out: &mut [u8],
    size: &mut usize,
    place: &mut usize,
) -> u8
    ensures { Strips reply.now out.old (record { number = result; length = size.new; place = place.new }) out.new }
{
    headlink::replies::dirgemist_head_strip(reply, out, size, place)
}

// Where the part of a stripped block starts, and its length.
#[unsafe(no_mangle)]
pub extern "C" fn dirgemist_head_part(stripped: &[u8], start: &mut usize, size: &mut usize) -> u8
    ensures { record { number = result; start = start.new; length = size.new } ≡ part_of stripped.now }
{
    headlink::replies::dirgemist_head_part(stripped, start, size)
}

// The data set at a place: the lengths of its address and its value, the place after it, and where it is malformed its place.
#[unsafe(no_mangle)]
pub extern "C" fn dirgemist_head_next(
    sets: &[u8],
    at: usize,
    address: &mut usize,
    value: &mut usize,
    next: &mut usize,
    place: &mut usize,
) -> u8
    ensures { record { number = result; address_length = address.new; value_length = value.new; next = next.new; place = place.new } ≡ set_read sets.now at }
{
    headlink::replies::dirgemist_head_next(sets, at, address, value, next, place)
}

// What a reader answers after so many sets: where it was read, and the same of it.
#[unsafe(no_mangle)]
pub extern "C" fn dirgemist_head_set_after(
    sets: &[u8],
    count: usize,
    start: &mut usize,
    address: &mut usize,
    value: &mut usize,
    next: &mut usize,
    place: &mut usize,
) -> u8
    ensures { record { start = start.exit.now; set = record { number = result; address_length = address.new; value_length = value.new; next = next.new; place = place.new } } ≡ set_after sets.now count }
{
    headlink::replies::dirgemist_head_set_after(sets, count, start, address, value, next, place)
}

// The first data set with an address: how many sets were read, the place of a malformed one before any match, and where its address and its value stand.
#[unsafe(no_mangle)]
pub extern "C" fn dirgemist_head_find(
    sets: &[u8],
    address: &[u8],
    count: &mut usize,
    place: &mut usize,
    address_start: &mut usize,
    address_length: &mut usize,
    value_start: &mut usize,
    value_length: &mut usize,
) -> u8
    ensures { record { number = result; count = count.new; place = place.new; address_start = address_start.new; address_length = address_length.new; value_start = value_start.new; value_length = value_length.new } ≡ lookup sets.now address.now }
{
    headlink::replies::dirgemist_head_find(
        sets,
        address,
        count,
        place,
        address_start,
        address_length,
        value_start,
        value_length,
    )
}
