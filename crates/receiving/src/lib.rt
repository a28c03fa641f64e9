// Receiving: what one character means to the receiver, and the receiver after it.
#![tactic(auto)]

ghost use Rattle.std.specs.Prelude.{◌≡◌, cond, ◌<◌, ◌-◌, length, take, get_or, set};
ghost use Rattle.receiving.specs.Hearing.{listening, confirming, framing, hearing};
ghost use Rattle.receiving.specs.Receivers.{hurt_at, hurt_place, kept_receiver, restarted_receiver, last_held, held_after};
ghost use Rattle.state.specs.Sizes.{held_places};

use state::setting::empty_receiver;
use state::{HELD_PLACES, MOST_HELD, Receiver};

// What becomes of the characters that are held: they stay, one more stands at a place, or all are 0 but for the first.
#[derive(Clone, Copy)]
pub enum Holding {
    Same,
    More(u8, u8),
    Anew(u8),
}

// What a character does to the receiver.
#[derive(Clone, Copy)]
pub enum Hearing {
    // It is dropped.
    Drop,
    // It is held.
    Hold,
    // It starts the line or frame anew.
    Restart,
    // It is one too many, and the receiver is empty.
    Empty,
    // It ends a line.
    Line,
    // It is the sixth of a confirmation.
    Confirm,
    // It is the BCC of a whole frame.
    Frame,
    // It is the 64th of a frame that does not end.
    TooLong,
}

// Mode 0.
fn listen(count: u8, c: u8) -> Hearing
    ensures { result ≡ listening count c }
{
    if c == b'/' {
        return Hearing::Restart;
    }
    if count == 0 {
        return Hearing::Drop;
    }
    if c == line::LF {
        return Hearing::Line;
    }
    if 31 <= count {
        return Hearing::Empty;
    }
    Hearing::Hold
}

// Mode 1.
fn confirm(count: u8) -> Hearing
    ensures { result ≡ confirming count }
{
    if 5 <= count {
        return Hearing::Confirm;
    }
    Hearing::Hold
}

// Modes 2 to 4.
fn frame(count: u8, last: u8, c: u8) -> Hearing
    ensures { result ≡ framing count last c }
{
    let ended = !(count == 0) & (last == line::ETX);
    if ended {
        return Hearing::Frame;
    }
    if c == line::SOH {
        return Hearing::Restart;
    }
    if count == 0 {
        return Hearing::Drop;
    }
    if MOST_HELD <= count {
        return Hearing::TooLong;
    }
    Hearing::Hold
}

// What a character means in a mode, after so many held, the last of them given.
#[tactic(auto, unfolding(crate::specs::Hearing::hearing))]
pub fn hear(mode: u8, count: u8, last: u8, c: u8) -> Hearing
    ensures { result ≡ hearing mode count last c }
{
    match mode {
        0 => listen(count, c),
        1 => confirm(count),
        _ => frame(count, last, c),
    }
}

// The last held character; 0 where none is held.
pub fn last_held(r: Receiver) -> u8
    ensures { result ≡ last_held r }
{
    last_in(&r.held, r.count)
}

// The last of so many characters that are held.
// Stays: the characters and their count are fields of C's record, lent apart.
pub fn last_in(held: &[u8; HELD_PLACES as usize], count: u8) -> u8
    ensures { result ≡ get_or held.now (count - 1) 0 }
{
    text::at(held, count.saturating_sub(1) as usize)
}

// The place of the first damaged character: that of the mark, else this one's, behind the last held one.
pub fn hurt_at(count: u8, mark: u8, place: u8, damaged: bool) -> u8
    ensures { result ≡ hurt_at count mark place damaged }
{
    if mark == 1 {
        place
    } else if damaged {
        count
    } else {
        0
    }
}

pub fn hurt_place(r: Receiver, damaged: bool) -> u8
    ensures { result ≡ hurt_place r damaged }
{
    hurt_at(r.count, r.mark, r.place, damaged)
}

// The mark after one character more.
pub fn mark_after(mark: u8, damaged: bool) -> u8
    ensures { result ≡ cond damaged 1 mark }
{
    if damaged { 1 } else { mark }
}

// The receiver with one character more.
pub fn keep(r: Receiver, c: u8, damaged: bool) -> Receiver
    requires { r.count < held_places }
    ensures { result ≡ kept_receiver r c damaged }
{
    let mut next = r;
    next.held[r.count as usize] = c;
    next.count = r.count + 1;
    next.mark = mark_after(r.mark, damaged);
    next.place = hurt_place(r, damaged);
    next
}

// The receiver with this character alone.
pub fn restart(c: u8) -> Receiver
    ensures { result ≡ restarted_receiver c }
{
    let mut next = empty_receiver();
    next.held[0] = c;
    next.count = 1;
    next
}

// The characters after a character, where they lie.
pub fn hold(held: &mut [u8; HELD_PLACES as usize], h: Holding)
    ensures { held.new ≡ held_after h held.old }
{
    match h {
        Holding::Same => {}
        Holding::More(at, c) => {
            // Stays: tried with `get_mut`, whose promise says nothing of what the characters are then, so that `held_after` doesn't follow.
            if at < HELD_PLACES {
                held[at as usize] = c;
            }
        }
        Holding::Anew(c) => {
            *held = [0; HELD_PLACES as usize];
            held[0] = c;
        }
    }
}
