// A captured reply, wire bytes on standard input: each data set of its block as `address value` on a line, or the first with the address that
// the program is started with; for a refusal its number, a space, the place and LF.
#![tactic(auto)]

ghost use Rattle.std.specs.Prelude.{◌≡◌, ◌≤◌, length, take};

use numerals::Shown;
use showing::Refusal;
use std::rt::Env;

// The place of the address among a program's words, behind its own name.
const ADDRESS: usize = 1;

// The place of a word that is one too many.
const BEYOND: usize = 2;

// What is shown of a reply. A longer address is kept as one of no characters, which no set has either (`unfit-shown`).
fn shown(rt: &impl Env, reply: &[u8], out: &mut [u8]) -> Shown<Refusal>
    requires { 4138 ≤ length out.old }
    ensures within { (result.length ≤ length out.new) × (result.length ≡ length (take result.length out.new)) }
{
    let mut address = [0u8; 17];
    match streams::word_told(rt, ADDRESS, &mut address) {
        None => showing::show(reply, out),
        Some(n) => showing::show_register(reply, &address[..n], out),
    }
}

// Reads to the end and keeps a byte more than the longest reply, so that a longer one is refused with 26.
fn main(rt: HostRuntime) {
    if streams::word_told(&rt, BEYOND, &mut [0u8; 1]).is_some() {
        let _ = rt.eprintln("one address at most");
        return;
    }
    let mut wire = [0u8; 4097];
    let Ok(n) = streams::read_all(&rt, &mut wire) else {
        streams::complain(&rt);
        return;
    };
    let mut out = [0u8; 4138];
    let shown = shown(&rt, &wire[..n], &mut out);
    streams::write_once(&rt, &out[..shown.length], shown.outcome.is_ok());
}
