// Frames and blocks: the characters from a start on, closed by ETX and BCC, with parity.
#![tactic(auto)]

ghost use Rattle.std.specs.Prelude.{◌≡◌, ◌++◌, ◌+◌, ◌≤◌, length, take, drop};
ghost use Rattle.line.specs.Checksum.{bcc_of};
ghost use Rattle.text.specs.Writing.{holding};
ghost use Rattle.frames.specs.Frames.{sealed, on_wire};
ghost use Rattle.frames.specs.Session.{wired_line};

// Puts parity on a run, and gives the BCC of all from its second character on: one pass, in which each is fetched once.
fn send_summed(s: &mut [u8]) -> u8
    requires { 1 ≤ length s.old }
    ensures sum { result ≡ bcc_of (drop 1 s.old) }
    ensures held { s.new ≡ on_wire s.old }
{
    let mut sum = s[0];
    for c in s {
        sum ^= *c;
        *c = line::wire(*c);
    }
    sum % 128
}

// Puts parity on the first n characters.
pub fn send(buf: &mut [u8], n: usize)
    requires { n ≤ length buf.old }
    ensures { buf.new ≡ on_wire (take n buf.old) ++ drop n buf.old }
{
    line::put_parity(&mut buf[..n]);
}

// Closes what stands in the first n characters of the buffer by ETX and BCC, and gives the length of the whole.
pub fn seal(buf: &mut [u8], n: usize) -> usize
    requires { (1 ≤ n) × (n + 2 ≤ length buf.old) }
    ensures whole { result ≡ n + 2 }
    ensures held { buf.new ≡ holding buf.old (on_wire (sealed (take n buf.old))) }
{
    let last = n + 1;
    buf[n] = line::ETX;
    let sum = send_summed(&mut buf[..last]);
    buf[last] = line::wire(sum);
    n + 2
}

// A line of the wired link: its letter and a serial, without parity.
pub fn wired_line(letter: u8, serial: &[u8]) -> [u8; 15]
    requires { length serial.now ≡ 10 }
    ensures { result ≡ wired_line letter serial.now }
{
    let mut shown = [0u8; 15];
    let start = [b'/', letter];
    let a = text::put(&mut shown, 0, &start);
    let b = values::writing::put_wired(&mut shown, a, serial);
    text::put(&mut shown, b, b"\r\n");
    shown
}
