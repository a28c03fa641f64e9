// A frame that comes whole, as a slice: the state is checked once, the slice is looked at as a whole, and the answer is that of the character engine
// at its last byte.
#![tactic(auto)]

ghost use Rattle.std.specs.Prelude.{◌≡◌, true, map, ◌≤◌, ◌<◌, length};
ghost use Rattle.line.specs.Runs.{every};
ghost use Rattle.text.specs.Writing.{holding};
ghost use Rattle.frames.specs.Frames.{on_wire};
ghost use Rattle.state.specs.Sizes.{most_held, reply_room};
ghost use Rattle.state.specs.WellFormed.{well_formed};
ghost use Rattle.state.specs.Setting.{with_receiver};
ghost use Rattle.meter.specs.Outcomes.{answer_of};
ghost use Rattle.meter.specs.Character.{symbol, taken};
ghost use Rattle.whole.specs.Whole.{frame_at};
ghost use Rattle.whole.specs.Gathering.{is, is_not, held_next, held_at_last, held_over, held_in, any_held, filled};
ghost use Rattle.whole.specs.Looking.{number_of, speed_of, told, gathered, awaits_in, looked_by, looked, refused_with, refuses};

use meter::Answer;
use state::setting::{empty_receiver, with_held, with_mark, with_receiver};
use state::{MOST_HELD, Meter, REPLY_ROOM, Receiver};

// Whether a byte is this control character, undamaged.
fn is_control(c: u8, b: u8) -> bool
    ensures { result ≡ is c b }
{
    meter::symbol_of(b) == c
}

// Whether no byte of a run is this control character. Every byte is looked at, with one way out at the end: `all` would leave at each.
fn has_no(c: u8, s: &[u8]) -> bool
    ensures { result ≡ every (is_not c) s.now }
{
    let mut ok = true;
    for b in s {
        ok = ok & !is_control(c, *b);
    }
    ok
}

// How many are held after a byte that is not the last; none where no frame can come of it.
fn hold(held: usize, before: u8, b: u8) -> Option<usize>
    requires { 1 ≤ held }
    ensures { result ≡ any_held (held_next held before b) }
{
    if is_control(line::ETX, before) {
        return None;
    }
    if is_control(line::SOH, b) {
        return Some(1);
    }
    if MOST_HELD as usize <= held {
        return None;
    }
    Some(held + 1)
}

// How many are held when the last byte finishes a frame.
fn hold_at_last(held: usize, before: u8, b: u8) -> Option<usize>
    requires { 1 ≤ held }
    ensures { result ≡ any_held (held_at_last held before b) }
{
    if is_control(line::ETX, before) {
        return Some(held);
    }
    if is_control(line::SOH, b) {
        return None;
    }
    if MOST_HELD as usize <= held {
        return Some(held);
    }
    None
}

// A run with restarts in it, or an ETX before its end: byte by byte.
fn held_slowly(run: &[u8]) -> Option<usize>
    requires { 1 ≤ length run.now }
    ensures { result ≡ any_held (held_over run.now) }
{
    let mut held = 1;
    let mut before = run[0];
    let rest = text::rest(run, 1);
    for b in rest {
        held = hold(held, before, *b)?;
        before = *b;
    }
    Some(held)
}

// How many bytes of a run are held at its end, the first being an SOH. Most have no other control character but the ETX that ends them, and are held whole.
fn held_over(run: &[u8]) -> Option<usize>
    requires { 1 ≤ length run.now }
    ensures { result ≡ any_held (held_over run.now) }
{
    let n = run.len();
    if n <= MOST_HELD as usize {
        let plain = has_no(line::SOH, text::rest(run, 1))
            & has_no(line::ETX, text::first(run, n - 1));
        if plain {
            return Some(n);
        }
    }
    held_slowly(run)
}

// How many bytes before the last are held when it finishes a frame; none where it does not, or a frame was finished before.
fn held_in(frame: &[u8]) -> Option<usize>
    ensures { result ≡ any_held (held_in frame.now) }
{
    let n = frame.len();
    if n < 2 {
        return None;
    }
    if !is_control(line::SOH, frame[0]) {
        return None;
    }
    let held = held_over(text::first(frame, n - 1))?;
    hold_at_last(held, frame[n - 2], frame[n - 1])
}

// Each byte of a run becomes its character.
fn to_characters(s: &mut [u8])
    ensures { s.new ≡ map symbol s.old }
{
    for b in s.iter_mut() {
        *b = meter::symbol_of(*b);
    }
}

// The receiver that holds a run, filled at once.
fn fill(run: &[u8]) -> Receiver
    requires { length run.now ≤ most_held }
    ensures { result ≡ filled run.now }
{
    let r = empty_receiver();
    let mut held = r.held;
    text::put(&mut held, 0, run);
    to_characters(&mut held);
    let next = with_held(r, held, run.len() as u8);
    if line::undamaged(run) {
        return next;
    }
    with_mark(next, 1, damage::first_damaged(run) as u8)
}

// Why a slice is refused, and at what speed the answer is sent where the state has one.
#[derive(Clone, Copy, PartialEq, Eq)]
pub enum Refusal {
    NoEdition,
    ShortBuffer,
    Malformed,
    NoFrame(u8),
}

impl Refusal {
    pub fn number(self) -> u8
        ensures { result ≡ number_of self }
    {
        match self {
            Refusal::NoEdition => 16,
            Refusal::ShortBuffer => 12,
            Refusal::Malformed => 14,
            Refusal::NoFrame(_) => 17,
        }
    }

    pub fn speed(self) -> u8
        ensures { result ≡ speed_of self }
    {
        match self {
            Refusal::NoFrame(speed) => speed,
            _ => 0,
        }
    }
}

// What a slice that is a frame comes to: its last byte, and the receiver that holds what comes before it. The byte stands first: a refusal lies where the first
// two bytes do, and the held characters behind it are copied as a whole.
#[derive(Clone, Copy)]
pub struct Gathered {
    pub last: u8,
    pub receiver: Receiver,
}

// A slice that may be a frame: what its last byte finishes, if it does.
fn gather(speed: u8, frame: &[u8]) -> Result<Gathered, Refusal>
    ensures { told result ≡ gathered speed frame.now }
{
    match held_in(frame) {
        Some(held) => {
            let last = frame.len() - 1;
            let run = text::first(text::rest(frame, last - held), held);
            Ok(Gathered {
                last: frame[last],
                receiver: fill(run),
            })
        }
        None => Err(Refusal::NoFrame(speed)),
    }
}

// Modes 2 to 4 with an empty receiver.
fn awaits_frame(mode: u8, count: u8) -> bool
    ensures { result ≡ awaits_in mode count }
{
    (2 <= mode) & (count == 0)
}

// A frame that comes whole, by what it asks of a state: a state is too long to be handed on.
// Stays: a public function keeps its parameters.
pub fn look(
    mode: u8,
    speed: u8,
    count: u8,
    edition: u8,
    formed: bool,
    frame: &[u8],
    room: usize,
) -> Result<Gathered, Refusal>
    ensures { told result ≡ looked_by mode speed count edition formed frame.now room }
{
    if !values::is_edition(edition) {
        return Err(Refusal::NoEdition);
    }
    if room < REPLY_ROOM {
        return Err(Refusal::ShortBuffer);
    }
    if !formed {
        return Err(Refusal::Malformed);
    }
    if !awaits_frame(mode, count) {
        return Err(Refusal::NoFrame(speed));
    }
    gather(speed, frame)
}

// The same of a state by value.
fn look_at(m: Meter, frame: &[u8], room: usize) -> Result<Gathered, Refusal>
    ensures { told result ≡ looked m room frame.now }
{
    look(
        m.mode,
        m.speed,
        m.receiver.count,
        m.registers.facts.edition,
        state::is_well_formed(m),
        frame,
        room,
    )
}

// Nothing changed, and no reply.
fn refused(m: Meter, e: Refusal) -> Answer
    ensures { result ≡ answer_of (refused_with m (refuses (number_of e) (speed_of e))) }
{
    Answer {
        number: e.number(),
        length: 0,
        speed: e.speed(),
        place: 0,
        next: m,
    }
}

// The last byte, upon the receiver that holds the run before it: the meter's own step.
fn take_last(m: Meter, receiver: Receiver, last: u8, reply: &mut [u8]) -> Answer
    requires { (well_formed (with_receiver m receiver) ≡ true) × (reply_room ≤ length reply.old) }
    ensures result { result ≡ answer_of (taken (with_receiver m receiver) last) }
    ensures held { reply.new ≡ holding reply.old (on_wire (taken (with_receiver m receiver) last).reply) }
{
    meter::events::act(with_receiver(m, receiver), 0, last as u32, reply)
}

// A frame that comes whole, to any meter with any buffer.
pub fn receive_frame(m: Meter, frame: &[u8], reply: &mut [u8]) -> Answer
    ensures result { result ≡ answer_of (frame_at m (length reply.old) frame.now) }
    ensures held { reply.new ≡ holding reply.old (on_wire (frame_at m (length reply.old) frame.now).reply) }
{
    match look_at(m, frame, reply.len()) {
        Ok(g) => take_last(m, g.receiver, g.last, reply),
        Err(e) => refused(m, e),
    }
}
