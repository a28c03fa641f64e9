// The exports of `forum`, each with its clauses, as the static library that C and Rust link.
#![tactic(auto)]

ghost use Rattle.post.specs.Place.{CheckedFor};
ghost use Rattle.export.specs.Frames.{ExportedFor};

// Whether a text is a post for an edition: 1, 20 or 16; the place is always written.
#[unsafe(no_mangle)]
pub extern "C" fn dirgemist_post_check(edition: u8, text: &[u8], place: &mut usize) -> u8
    ensures { CheckedFor edition text.now result place.new }
{
    forum::dirgemist_post_check(edition, text, place)
}

// The frames of a post for an edition: 1, 20, 21 or 16; length and place are always written, the buffer only with 1.
#[unsafe(no_mangle)]
pub extern "C" fn dirgemist_post_export(
    edition: u8,
    text: &[u8],
    out: &mut [u8],
    length: &mut usize,
    place: &mut usize,
) -> u8
    ensures { ExportedFor edition text.now out.old result length.new place.new out.new }
{
    forum::dirgemist_post_export(edition, text, out, length, place)
}
