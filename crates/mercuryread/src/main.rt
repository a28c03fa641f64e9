// A captured exchange with a Mercury meter, wire bytes on standard input, the request and then the answer: each quantity on a line, `-` for
// one that was not measured; for an answer without data its number, a space, the code of the status or 0, and LF.
#![tactic(auto)]

fn main(rt: HostRuntime) {
    let mut capture = [0u8; 64];
    let Ok(n) = streams::read_all(&rt, &mut capture) else {
        streams::complain(&rt);
        return;
    };
    let mut out = [0u8; 128];
    let shown = mercuryshow::show(&capture[..n], &mut out);
    streams::write_once(&rt, &out[..shown.length], shown.outcome.is_ok());
}
