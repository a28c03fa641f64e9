// A post from standard input, delivered to a new meter of the edition that it is started with, in programming mode: `1`, a space and the acknowledgements, or for any other text `20`, a space
// and the place; then the meter's rows, a line each.
#![tactic(auto)]

// Stays: a program's three steps, each a call; shared with the two like it they would take room, call and answer as parameters.
fn main(rt: HostRuntime) {
    let mut text = [0u8; 4096];
    let Ok(n) = streams::read_all(&rt, &mut text) else {
        streams::complain(&rt);
        return;
    };
    let mut out = [0u8; 667];
    let said = reporting::report(streams::edition_told(&rt), &text[..n], &mut out);
    streams::write_once(&rt, &out[..said.length], said.outcome.is_ok());
}
