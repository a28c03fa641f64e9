// All that is shown of a captured exchange with a Mercury meter, made in a lent buffer: each quantity of its answer on a line, `-` for one
// that was not measured; for an answer without data its number, a space, the code of the status or 0, and LF.
#![tactic(auto)]

ghost use Rattle.std.specs.Prelude.{◌≡◌, ◌+◌, ◌≤◌, length, take};
ghost use Rattle.text.specs.Writing.{stored};
ghost use Rattle.mercuryshow.specs.Shown.{quantity_text, quantity_line, energy_text, answer_text, Shows};

use mercury::answering::{Energy, Refusal};
use numerals::Shown;

// Room for what is shown.
pub const ROOM: usize = 128;

// A capture begins with the request.
const REQUEST: usize = 6;

// Puts a quantity into a buffer from a place on, and gives the place after it.
fn put_quantity(out: &mut [u8], at: usize, q: Option<u32>) -> usize
    requires { at + 20 ≤ length out.old }
    ensures next { result ≡ at + length (quantity_text q) }
    ensures held { out.new ≡ stored out.old at (quantity_text q) }
{
    match q {
        Some(n) => numerals::put(out, at, n as u64),
        None => text::put(out, at, b"-"),
    }
}

// The same on a line, behind its name of three characters.
fn put_line(out: &mut [u8], at: usize, name: &[u8], q: Option<u32>) -> usize
    requires { (length name.now ≡ 3) × (at + 24 ≤ length out.old) }
    ensures next { result ≡ at + length (quantity_line name.now q) }
    ensures held { out.new ≡ stored out.old at (quantity_line name.now q) }
{
    let first = text::put(out, at, name);
    let end = put_quantity(out, first, q);
    text::put(out, end, b"\n")
}

// The four lines.
fn put_energy(out: &mut [u8], e: Energy) -> usize
    requires { 128 ≤ length out.old }
    ensures next { result ≡ length (energy_text e) }
    ensures held { out.new ≡ stored out.old 0 (energy_text e) }
{
    let second = put_line(out, 0, b"A+ ", e.active_in);
    let third = put_line(out, second, b"A- ", e.active_out);
    let fourth = put_line(out, third, b"R+ ", e.reactive_in);
    put_line(out, fourth, b"R- ", e.reactive_out)
}

fn put_answer(out: &mut [u8], a: Result<Energy, Refusal>) -> usize
    requires { 128 ≤ length out.old }
    ensures next { result ≡ length (answer_text a) }
    ensures held { out.new ≡ stored out.old 0 (answer_text a) }
{
    match a {
        Ok(e) => put_energy(out, e),
        Err(_) => {
            let number = mercury::answering::number_of(a);
            let code = mercury::answering::code_of(a);
            numerals::put_line(out, 0, number as u64, code as u64)
        }
    }
}

// What a capture shows: the request as it was sent, six bytes, of which the address is looked at, and then the answer.
pub fn show(capture: &[u8], out: &mut [u8]) -> Shown<Refusal>
    requires { 128 ≤ length out.old }
    ensures shows { Shows capture.now out.old result out.new }
    ensures within { (result.length ≤ length out.new) × (result.length ≡ length (take result.length out.new)) }
{
    let a = mercury::answering::read(text::rest(capture, REQUEST), text::at(capture, 0));
    let length = put_answer(out, a);
    Shown {
        outcome: a.and(Ok(())),
        length,
    }
}
