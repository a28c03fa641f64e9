// All that is shown of a captured reply, made in a lent buffer: each data set of its block as `address value` on a line, or the first with an
// address; for a refusal its number, a space, the place and LF.
#![tactic(auto)]

ghost use Rattle.std.specs.Prelude.{◌≡◌, ◌+◌, ◌≤◌, length, take, drop, None, Some, Err};
ghost use Rattle.reading.specs.Whole.{read_all};
ghost use Rattle.finding.specs.Finding.{lookup};
ghost use Rattle.text.specs.Writing.{stored};
ghost use Rattle.numerals.specs.Numerals.{number_line};
ghost use Rattle.showing.specs.Refusals.{refusal_number, refusal_place};
ghost use Rattle.showing.specs.Shown.{set_line, sets_shown, first_shown, wanted_shown, block_shown, reply_shown, readout_shown, register_shown, written_told, wanted_place, block_place, reply_place, Placed, Shows};

use finding::Missed;
use numerals::Shown;

// The longest reply that is taken, and room for what is shown of it.
pub const LONGEST: usize = 4096;

pub const ROOM: usize = 4138;

// Why no more is shown: the reply has no part, a data set is malformed, or none has the address.
#[derive(Clone, Copy)]
pub enum Refusal {
    Block(blocks::Refusal),
    // It starts there.
    Malformed(usize),
    Missing,
}

impl Refusal {
    // Its number of document 01.
    fn number(self) -> u8
        ensures { result ≡ refusal_number self }
    {
        match self {
            Refusal::Block(refusal) => refusal.number(),
            Refusal::Malformed(_) => reading::MALFORMED,
            Refusal::Missing => finding::MISSING,
        }
    }

    // The place that goes with the number, else 0.
    fn place(self) -> usize
        ensures { result ≡ refusal_place self }
    {
        match self {
            Refusal::Block(refusal) => refusal.place(),
            Refusal::Malformed(place) => place,
            Refusal::Missing => 0,
        }
    }
}

// Puts the data set at a place of some data, given by the lengths of its address and its value, into a buffer.
fn put_set(out: &mut [u8], to: usize, sets: &[u8], at: usize, address: usize, value: usize) -> usize
    requires { (at + address + 1 + value ≤ length sets.now) × (to + address + value + 2 ≤ length out.old) }
    ensures next { result ≡ to + address + value + 2 }
    ensures held { out.new ≡ stored out.old to (set_line (record { address = take address (drop at sets.now); value = take value (drop (at + address + 1) sets.now) })) }
{
    let open = at + address;
    let first = open + 1;
    let close = first + value;
    let space = text::put(out, to, &sets[at..open]);
    let second = text::put(out, space, b" ");
    let end = text::put(out, second, &sets[first..close]);
    text::put(out, end, b"\n")
}

// A refusal, below what is shown so far.
fn refuse(out: &mut [u8], to: usize, refusal: Refusal) -> Shown<Refusal>
    requires { to + 42 ≤ length out.old }
    ensures refused { result.outcome ≡ Err refusal }
    ensures value { written_told result ≡ record { number = refusal_number refusal; length = to + length (number_line (refusal_number refusal) (refusal_place refusal)) } }
    ensures held { out.new ≡ stored out.old to (number_line (refusal_number refusal) (refusal_place refusal)) }
{
    let number = refusal.number();
    let place = refusal.place();
    Shown {
        outcome: Err(refusal),
        length: numerals::put_line(out, to, number as u64, place as u64),
    }
}

// The data sets one by one, up to the end or a malformed one.
fn show_sets(sets: &[u8], out: &mut [u8]) -> Shown<Refusal>
    requires { length sets.now + 42 ≤ length out.old }
    ensures shows { Shows (sets_shown sets.now) out.old (written_told result) out.new }
    ensures placed { Placed ((read_all sets.now).place) result.outcome }
{
    let mut at = 0;
    let mut to = 0;
    // Stays: it goes from a set to the next, whose place the set itself says.
    loop {
        let set = match reading::next_set(sets, at) {
            Ok(Some(set)) => set,
            Ok(None) => {
                return Shown {
                    outcome: Ok(()),
                    length: to,
                };
            }
            Err(set) => return refuse(out, to, Refusal::Malformed(set.place)),
        };
        to = put_set(out, to, sets, at, set.address_length, set.value_length);
        at = set.next;
    }
}

// The first data set with an address, and nothing behind it.
fn show_first(sets: &[u8], address: &[u8], out: &mut [u8]) -> Shown<Refusal>
    requires { length sets.now + 42 ≤ length out.old }
    ensures shows { Shows (first_shown address.now sets.now) out.old (written_told result) out.new }
    ensures placed { Placed ((lookup sets.now address.now).place) result.outcome }
{
    match finding::find(sets, address) {
        Ok(set) => Shown {
            outcome: Ok(()),
            length: put_set(
                out,
                0,
                sets,
                set.address_start,
                set.address_length,
                set.value_length,
            ),
        },
        Err(Missed::Malformed { place, .. }) => refuse(out, 0, Refusal::Malformed(place)),
        Err(Missed::Missing { .. }) => refuse(out, 0, Refusal::Missing),
    }
}

// Every data set, or the first with the address that is wanted.
fn show_wanted(sets: &[u8], wanted: Option<&[u8]>, out: &mut [u8]) -> Shown<Refusal>
    requires { length sets.now + 42 ≤ length out.old }
    ensures shows { Shows (wanted_shown wanted.entry sets.now) out.old (written_told result) out.new }
    ensures placed { Placed (wanted_place wanted.entry sets.now) result.outcome }
{
    match wanted {
        None => show_sets(sets, out),
        Some(address) => show_first(sets, address, out),
    }
}

// What a stripped block holds of it.
fn show_block(block: &[u8], wanted: Option<&[u8]>, out: &mut [u8]) -> Shown<Refusal>
    requires { length block.now + 42 ≤ length out.old }
    ensures shows { Shows (block_shown (wanted_shown wanted.entry) block.now) out.old (written_told result) out.new }
    ensures placed { Placed (block_place (wanted_place wanted.entry) block.now) result.outcome }
{
    match blocks::find(block) {
        Ok(sets) => show_wanted(sets, wanted, out),
        Err(refusal) => refuse(out, 0, Refusal::Block(refusal)),
    }
}

// What a reply holds of it.
fn show_reply(reply: &[u8], wanted: Option<&[u8]>, out: &mut [u8]) -> Shown<Refusal>
    requires { 4138 ≤ length out.old }
    ensures shows { Shows (reply_shown (wanted_shown wanted.entry) reply.now) out.old (written_told result) out.new }
    ensures placed { Placed (reply_place (wanted_place wanted.entry) reply.now) result.outcome }
{
    let mut plain = [0u8; LONGEST];
    match blocks::strip(reply, &mut plain) {
        Ok(n) => show_block(&plain[..n], wanted, out),
        Err(refusal) => refuse(out, 0, Refusal::Block(refusal)),
    }
}

// Every data set of a reply.
pub fn show(reply: &[u8], out: &mut [u8]) -> Shown<Refusal>
    requires { 4138 ≤ length out.old }
    ensures shows { Shows (readout_shown reply.now) out.old (written_told result) out.new }
    ensures placed { Placed (reply_place (wanted_place None) reply.now) result.outcome }
    ensures within { (result.length ≤ length out.new) × (result.length ≡ length (take result.length out.new)) }
{
    show_reply(reply, None, out)
}

// The first data set of a reply with an address.
pub fn show_register(reply: &[u8], address: &[u8], out: &mut [u8]) -> Shown<Refusal>
    requires { 4138 ≤ length out.old }
    ensures shows { Shows (register_shown reply.now address.now) out.old (written_told result) out.new }
    ensures placed { Placed (reply_place (wanted_place (Some address.entry)) reply.now) result.outcome }
    ensures within { (result.length ≤ length out.new) × (result.length ≡ length (take result.length out.new)) }
{
    show_reply(reply, Some(address), out)
}
