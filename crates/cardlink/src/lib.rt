// Cards for C: the check, the reader and the writer, on numbers, byte buffers and a lent record. The header is include/dirgemist_card.h.
// The function of the header only passes values on.
#![tactic(auto)]

ghost use Rattle.std.specs.Prelude.{◌≡◌};
ghost use Rattle.card.specs.Place.{CheckedFor};
ghost use Rattle.card.specs.Frames.{ReadFor};
ghost use Rattle.cardwriting.specs.Writing.{written_in, written_to};

use state::Meter;

// Whether a text is a card for an edition: 1, 40 or 16; the place is always written.
#[unsafe(no_mangle)]
pub extern "C" fn dirgemist_card_check(edition: u8, text: &[u8], place: &mut usize) -> u8
    ensures { CheckedFor edition text.now result place.new }
{
    match card::check(edition, text) {
        Ok(()) => {
            *place = 0;
            1
        }
        Err(refusal) => {
            *place = refusal.place();
            refusal.number()
        }
    }
}

// The frames of a card for an edition: 1, 40, 41 or 16; length and place are always written, the buffer only with 1.
#[unsafe(no_mangle)]
pub extern "C" fn dirgemist_card_read(
    edition: u8,
    text: &[u8],
    out: &mut [u8],
    length: &mut usize,
    place: &mut usize,
) -> u8
    ensures { ReadFor edition text.now out.old result length.new place.new out.new }
{
    match card::read(edition, text, out) {
        Ok(size) => {
            *length = size;
            *place = 0;
            1
        }
        Err(refusal) => {
            *length = 0;
            *place = refusal.place();
            refusal.number()
        }
    }
}

fn hand_over(m: Meter, out: &mut [u8], length: &mut usize) -> u8
    ensures { (result ≡ (written_in m out.old).number) × (out.new ≡ written_to m out.old) × (length.new ≡ (written_in m out.old).length) }
{
    match cardwriting::write(m, out) {
        Ok(size) => {
            *length = size;
            1
        }
        Err(refusal) => {
            *length = 0;
            refusal.number()
        }
    }
}

// The card of a record that is only read: 1, 16, 14 or 41; the length is always written, the buffer only with 1.
#[unsafe(no_mangle)]
pub extern "C" fn dirgemist_card_write(m: &Meter, out: &mut [u8], length: &mut usize) -> u8
    ensures { (result ≡ (written_in m.now out.old).number) × (out.new ≡ written_to m.now out.old) × (length.new ≡ (written_in m.now out.old).length) }
{
    hand_over(*m, out, length)
}
