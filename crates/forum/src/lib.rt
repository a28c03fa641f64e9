// What the forum server calls: the post check and the export, on numbers and byte buffers. The header is include/dirgemist.h.
#![tactic(auto)]

ghost use Rattle.post.specs.Place.{CheckedFor};
ghost use Rattle.export.specs.Frames.{ExportedFor};

// Whether a text is a post for an edition: 1, 20 or 16; the place is always written.
#[unsafe(no_mangle)]
pub extern "C" fn dirgemist_post_check(edition: u8, text: &[u8], place: &mut usize) -> u8
    ensures { CheckedFor edition text.now result place.new }
{
    match post::check(edition, text) {
        Ok(()) => {
            *place = 0;
            1
        }
        Err(refusal) => {
            *place = refusal.place();
            refusal.number()
        }
    }
}

// The frames of a post for an edition: 1, 20, 21 or 16; length and place are always written, the buffer only with 1.
#[unsafe(no_mangle)]
pub extern "C" fn dirgemist_post_export(
    edition: u8,
    text: &[u8],
    out: &mut [u8],
    length: &mut usize,
    place: &mut usize,
) -> u8
    ensures { ExportedFor edition text.now out.old result length.new place.new out.new }
{
    match export::export(edition, text, out) {
        Ok(size) => {
            *length = size;
            *place = 0;
            1
        }
        Err(refusal) => {
            *length = 0;
            *place = refusal.place();
            refusal.number()
        }
    }
}
