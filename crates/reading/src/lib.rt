// Data sets read one by one from lent data, and the values in them.
#![tactic(auto)]

ghost use Rattle.std.specs.Prelude.{◌≡◌, true, ◌+◌, ◌-◌, ◌≤◌, length, take, drop, get_or};
ghost use Rattle.line.specs.Runs.{every};
ghost use Rattle.text.specs.Classes.{is_address, is_value};
ghost use Rattle.reading.specs.Sets.{is_plain, of_kind, Passes, Passed, Leads, starts_with3, set_told, set_read};

// The numbers of document 01 for the end of the data sets, for a data set and for a malformed one.
pub const END: u8 = 0;

pub const DONE: u8 = 1;

pub const MALFORMED: u8 = 25;

// Whether a byte may stand in an address; most are digits.
fn is_address(c: u8) -> bool
    ensures { result ≡ is_address c }
{
    if (48 <= c) & (c <= 57) {
        return true;
    }
    ((c == b'.') | (c == b'*')) | (((65 <= c) & (c <= 90)) | ((97 <= c) & (c <= 122)))
}

// Whether a byte may stand in a value; most are digits or letters.
fn is_value(c: u8) -> bool
    ensures { result ≡ is_value c }
{
    if (48 <= c) & (c <= 126) {
        return true;
    }
    ((c == b' ') | ((34 <= c) & (c <= 39))) | ((42 <= c) & (c <= 46))
}

fn of_kind(value: bool, c: u8) -> bool
    ensures { result ≡ of_kind value c }
{
    if value {
        return is_value(c);
    }
    is_address(c)
}

// Whether every byte is a plain one of a value; no way out and two tests a byte, so that eight are tested at once.
fn all_plain(s: &[u8]) -> bool
    ensures { result ≡ every is_plain s.now }
{
    let mut ok = true;
    for c in s {
        ok &= ((42 <= *c) & (*c <= 126)) & (*c != b'/');
    }
    ok
}

// Passes eight characters of a value at a time, while all of them are plain; the others are looked at one by one.
fn pass_eights(s: &[u8], at: usize, end: usize) -> usize
    requires { (at ≤ end) × (end ≤ length s.now) }
    ensures { Passes s.now at end result }
{
    let mut i = at;
    for eight in s[at..end].chunks_exact(8) {
        if !all_plain(eight) {
            return i;
        }
        i += 8;
    }
    i
}

// How many characters of a kind stand from a place on, of at most so many; those before `from` are known to be of it.
fn run(s: &[u8], at: usize, from: usize, value: bool, most: usize) -> usize
    requires { Passed s.now at from value most }
    ensures { Leads value most (drop at s.now) result }
{
    let n = (s.len() - at).min(most);
    for i in from..at + n {
        if !of_kind(value, s[i]) {
            return i - at;
        }
    }
    n
}

// The length of a value that starts at a place, 33 where it is longer than 32.
fn value_run(s: &[u8], at: usize) -> usize
    requires { at ≤ length s.now }
    ensures { Leads true 33 (drop at s.now) result }
{
    let n = (s.len() - at).min(33);
    let from = pass_eights(s, at, at + n);
    run(s, at, from, true, 33)
}

// A data set: how long its address and its value are, and the place after it.
#[derive(Clone, Copy)]
pub struct Extent {
    pub address_length: usize,
    pub value_length: usize,
    pub next: usize,
}

// A data set that is malformed, by the place where it starts.
#[derive(Clone, Copy)]
pub struct Malformed {
    pub place: usize,
}

// Reads the data set that starts at a place; none where the sets end.
pub fn next_set(data: &[u8], at: usize) -> Result<Option<Extent>, Malformed>
    ensures { set_told at result ≡ set_read «data».now at }
{
    if data.len() <= at {
        return Ok(None);
    }
    let malformed = Malformed { place: at };
    let a = run(data, at, at, false, 17);
    if a == 0 {
        if data[at..].starts_with(b"!\r\n") {
            return Ok(None);
        }
        return Err(malformed);
    }
    let open = at + a;
    if 16 < a {
        return Err(malformed);
    }
    if data.len() <= open {
        return Err(malformed);
    }
    if data[open] != b'(' {
        return Err(malformed);
    }
    let first = open + 1;
    let v = value_run(data, first);
    let close = first + v;
    if 32 < v {
        return Err(malformed);
    }
    if !data[close..].starts_with(b")\r\n") {
        return Err(malformed);
    }
    Ok(Some(Extent {
        address_length: a,
        value_length: v,
        next: close + 3,
    }))
}
