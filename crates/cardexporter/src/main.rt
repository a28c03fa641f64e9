// The card exporter: a card from standard input, its frames to standard output; for any other text `40`, a space, the place and LF.
// It reads to the end and keeps 4,096 bytes: a longer text is shown as that beginning is, the theorem long-showing of `cardexporting`.
// It may be started with the edition, 1 or 2; another word gives `16`, a space, 0 and LF.
#![tactic(auto)]

// Stays: a program's three steps, each a call; shared with the two like it they would take room, call and answer as parameters.
fn main(rt: HostRuntime) {
    let mut text = [0u8; 4096];
    let Ok(n) = streams::read_all(&rt, &mut text) else {
        streams::complain(&rt);
        return;
    };
    let mut out = [0u8; 919];
    let shown = cardexporting::show(streams::edition_told(&rt), &text[..n], &mut out);
    streams::write_once(&rt, &out[..shown.length], shown.outcome.is_ok());
}
