// Numbers as a program shows them: in decimal, without leading zeros; and a line of two. What a program shows, by its outcome and its length.
#![tactic(auto)]

ghost use Rattle.std.specs.Prelude.{◌≡◌, ◌+◌, ◌≤◌, length};
ghost use Rattle.text.specs.Writing.{stored};
ghost use Rattle.numerals.specs.Numerals.{width_of, digits_of, number_line};

// Whether what a program was given was shown, or what was told in place of it; and how many bytes of the buffer are to be written.
#[derive(Clone, Copy)]
pub struct Shown<E> {
    pub outcome: Result<(), E>,
    pub length: usize,
}

// How many digits a number is written in.
// Stays: a rule of the project: no heap. The digits go into a lent buffer, each byte promised, which `write!` to a String would not do.
fn width(n: u64) -> usize
    ensures { result ≡ width_of n }
{
    let mut left = n;
    for w in 1..20 {
        if left < 10 {
            return w;
        }
        left /= 10;
    }
    20
}

// Puts a number's digits into a buffer from a place on, and gives the place after them.
pub fn put(buf: &mut [u8], at: usize, n: u64) -> usize
    requires { at + length (digits_of n) ≤ length buf.old }
    ensures next { result ≡ at + length (digits_of n) }
    ensures held { buf.new ≡ stored buf.old at (digits_of n) }
{
    let w = width(n);
    let mut left = n;
    for i in (0..w).rev() {
        buf[at + i] = b'0' + (left % 10) as u8;
        left /= 10;
    }
    at + w
}

// Puts a line of two numbers into a buffer from a place on, and gives the place after it. No such line is longer than 42.
pub fn put_line(buf: &mut [u8], at: usize, n: u64, m: u64) -> usize
    requires { at + 42 ≤ length buf.old }
    ensures next { result ≡ at + length (number_line n m) }
    ensures held { buf.new ≡ stored buf.old at (number_line n m) }
{
    let space = put(buf, at, n);
    let second = text::put(buf, space, b" ");
    let end = put(buf, second, m);
    text::put(buf, end, b"\n")
}
