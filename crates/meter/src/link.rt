// All that a meter's link rules of its dialogue: how it is called and what it answers, which digits confirm, what a refusal replies and where it leads.
ghost use Rattle.std.specs.Prelude.{◌≡◌, ◌≤◌, [], ◌∷◌, ◌++◌, length};
ghost use Rattle.line.specs.Controls.{LF};
ghost use Rattle.text.specs.Writing.{holding};
ghost use Rattle.frames.specs.Frames.{on_wire};
ghost use Rattle.meter.specs.Link.{optical_call, wired_call, identified, slow_too, refused_reply, after_refusal};
ghost use Rattle.meter.specs.SignOn.{our_line, signs_on_by, closes_by};

use state::link::is_wired;

// The sign-on that names a serial, but for its LF.
// Stays: public functions keep their parameters, and the serial of C's record is handed to them as a slice.
fn our_line(serial: &[u8]) -> [u8; 15]
    requires { length serial.now ≡ 10 }
    ensures { result ≡ our_line serial.now }
{
    let mut shown = [0u8; 15];
    let a = text::put(&mut shown, 0, b"/?");
    let b = values::writing::put_serial(&mut shown, a, serial);
    text::put(&mut shown, b, b"!\r");
    shown
}

// Whether a line, which its LF has ended, is a sign-on of the optical link.
fn called(line: &[u8], serial: &[u8]) -> bool
    requires { length serial.now ≡ 10 }
    ensures { result ≡ optical_call (line.now ++ (LF ∷ [])) serial.now }
{
    let ours = our_line(serial);
    (text::same(line, b"/?!\r") | text::same(line, &ours)) | text::same(line, b"/?000 0000000!\r")
}

// The same of the wired link.
fn called_by_wire(line: &[u8], serial: &[u8]) -> bool
    requires { length serial.now ≡ 10 }
    ensures { result ≡ wired_call (line.now ++ (LF ∷ [])) serial.now }
{
    let ours = frames::wired_line(b'A', serial);
    text::same(line, text::first(&ours, 14)) | text::same(line, b"/A000.0000000\r")
}

// Whether a line signs on.
pub fn signs_on(link: u8, line: &[u8], serial: &[u8]) -> bool
    requires { length serial.now ≡ 10 }
    ensures { result ≡ signs_on_by link line.now serial.now }
{
    if is_wired(link) {
        return called_by_wire(line, serial);
    }
    called(line, serial)
}

// Whether it closes a period.
pub fn closes(link: u8, line: &[u8]) -> bool
    ensures { result ≡ closes_by link line.now }
{
    !is_wired(link) & text::same(line, b"/C!\r")
}

// The answer to a sign-on.
pub fn identify(link: u8, edition: u8, serial: &[u8], reply: &mut [u8]) -> usize
    requires { (length serial.now ≡ 10) × (19 ≤ length reply.old) }
    ensures whole { result ≡ length (identified link edition serial.now) }
    ensures held { reply.new ≡ holding reply.old (on_wire (identified link edition serial.now)) }
{
    if is_wired(link) {
        return replies::answer_call(reply, serial);
    }
    replies::identify(reply, edition)
}

// Whether the confirmation's digit may be '0'.
pub fn slow_too(link: u8) -> bool
    ensures { result ≡ slow_too link }
{
    !is_wired(link)
}

// NAK, or nothing.
pub fn refuse(link: u8, reply: &mut [u8]) -> usize
    requires { 1 ≤ length reply.old }
    ensures whole { result ≡ length (refused_reply link) }
    ensures held { reply.new ≡ holding reply.old (on_wire (refused_reply link)) }
{
    if is_wired(link) {
        return 0;
    }
    replies::refuse(reply)
}

// The mode after a refusal.
// Stays: the C interface: a mode is this number in the record.
pub fn fall(link: u8, mode: u8) -> u8
    ensures { result ≡ after_refusal link mode }
{
    if is_wired(link) | (mode == 2) {
        0
    } else {
        mode
    }
}
