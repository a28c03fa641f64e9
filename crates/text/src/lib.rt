// Text: characters put into a lent buffer, texts compared, and the form of a line with numbers in it.
#![tactic(auto)]

ghost use Rattle.std.specs.Prelude.{◌≡◌, ◌+◌, ◌-◌, ◌≤◌, min, length, take, drop, get_or, ℕ, Bool};
ghost use Rattle.line.specs.Runs.{every};
ghost use Rattle.text.specs.Writing.{stored};
ghost use Rattle.text.specs.Classes.{between, matching, same_text, is_digit};
ghost use Rattle.text.specs.Decimal.{decimal, number_at};
ghost use Rattle.text.specs.Layout.{agrees, fits};

// Puts the characters of s into the buffer from a place on, and gives the place after them. Most texts are short, and `copy_from_slice`
// is a call, which takes longer than to copy them here.
pub fn put(buf: &mut [u8], at: usize, s: &[u8]) -> usize
    requires { at + length s.now ≤ length buf.old }
    ensures next { result ≡ at + length s.now }
    ensures held { buf.new ≡ stored buf.old at s.now }
{
    for (i, c) in s.iter().enumerate() {
        buf[at + i] = *c;
    }
    at + s.len()
}

// The characters from the n-th on; where there are no more, the empty part at the end.
pub fn rest(s: &[u8], n: usize) -> &[u8]
    ensures lies { result.ref_ptr ≡ (s.entry.ref_ptr.0, min n (length s.now) + s.entry.ref_ptr.1) }
    ensures result_value { result.now ≡ drop n s.now }
{
    &s[n.min(s.len())..]
}

// The first n characters; all where there are no more.
pub fn first(s: &[u8], n: usize) -> &[u8]
    ensures lies { result.ref_ptr ≡ s.entry.ref_ptr }
    ensures result_value { result.now ≡ take n s.now }
{
    &s[..n.min(s.len())]
}

// The character at a place; 0 past the end.
pub fn at(s: &[u8], i: usize) -> u8
    ensures { result ≡ get_or s.now i 0 }
{
    if i < s.len() { s[i] } else { 0 }
}

// Whether two texts are of one length and agree at each place, by a test. Every place is looked at: with no early way out the compiler
// makes vector code.
fn agreeing<F: Fn(u8, u8) -> bool>(s: &[u8], t: &[u8], agree: F) -> bool
    ghost p: { ℕ → ℕ → Bool }
    requires callable { F.IsAlwaysCallable agree }
    requires tests { (a b : ℕ) (r : Bool) → F.post agree a b r → r ≡ p a b }
    ensures { result ≡ matching p s.now t.now }
{
    if s.len() != t.len() {
        return false;
    }
    let mut all = true;
    for (i, a) in s.iter().enumerate() {
        all &= agree(*a, t[i]);
    }
    all
}

// Whether two texts are the same.
pub fn same(s: &[u8], t: &[u8]) -> bool
    ensures { result ≡ same_text s.now t.now }
{
    agreeing(s, t, |a, b| a == b)
}

// Whether every character is one of lo to hi.
pub fn all_between(s: &[u8], lo: u8, hi: u8) -> bool
    ensures { result ≡ every (between lo hi) s.now }
{
    let mut ok = true;
    for c in s {
        ok &= (lo <= *c) & (*c <= hi);
    }
    ok
}

pub fn is_digit(c: u8) -> bool
    ensures { result ≡ is_digit c }
{
    (b'0' <= c) & (c <= b'9')
}

// Whether a character agrees with one of a pattern: '#' stands for any digit.
pub fn agree(p: u8, c: u8) -> bool
    ensures { result ≡ agrees p c }
{
    let mark = p == b'#';
    (mark & is_digit(c)) | (!mark & (p == c))
}

// Whether a text has the form of a pattern.
pub fn has_form(p: &[u8], s: &[u8]) -> bool
    ensures { result ≡ fits p.now s.now }
{
    agreeing(p, s, agree)
}
