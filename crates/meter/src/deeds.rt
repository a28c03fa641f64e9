// What an event that a meter has to act on comes to, decided from the session, what is held and what the meter has for life.
ghost use Rattle.std.specs.Prelude.{◌≡◌, ◌≤◌, length};
ghost use Rattle.frames.specs.Session.{speed_said};
ghost use Rattle.deciding.specs.Verdicts.{number_of, verdict_of};
ghost use Rattle.meter.specs.SignOn.{confirms, wants_block, wants_periods, wants_program};
ghost use Rattle.meter.specs.Deeds.{standing_in, at_rest, rests, refuses, goes_to, stays, signs_on, reads_out, invites, interrupted, starts, month_started, line_deed, confirmation_deed, password_deed, row_deed, verdict_deed, frame_deed, heard_deed, character_deed, silence_deed, left_deed};

use crate::{Deed, Event, Says, Small, Standing, Writes, link};
use clock::Clock;
use deciding::{Command, Refusal};
use receiving::Hearing;
use state::HELD_PLACES;
use state::link::rest_speed;
use state::setting::speed_in;
use values::TableNo;

// What decides of a meter, besides what it holds.
pub fn standing_in(s: Small) -> Standing
    ensures { result ≡ standing_in s }
{
    Standing {
        mode: s.mode,
        attempts: s.attempts,
        speed: s.speed,
        count: s.receiver.count,
        mark: s.receiver.mark,
        place: s.receiver.place,
        facts: s.plain.facts,
    }
}

// This said and this written, in the same session; the receiver is emptied. The other deeds are this one but for what they name.
fn stay(s: Standing, says: Says, writes: Writes) -> Deed
    ensures { result ≡ stays s says writes }
{
    Deed {
        // Stays: 1 is no refusal, but what C is answered.
        number: 1,
        place: 0,
        speed: s.speed,
        mode: s.mode,
        attempts: s.attempts,
        rate: s.speed,
        empties: true,
        long: false,
        says,
        writes,
    }
}

// At the link's own speed, with an empty receiver: this number, then this mode and so many attempts; this said and this written.
fn at_rest(s: Standing, number: u8, mode: u8, attempts: u8, says: Says, writes: Writes) -> Deed
    ensures { result ≡ at_rest s number mode attempts says writes }
{
    let speed = rest_speed(s.facts.link);
    Deed {
        number,
        speed,
        mode,
        attempts,
        rate: speed,
        ..stay(s, says, writes)
    }
}

// Nothing said, then mode 0.
fn rest(s: Standing, number: u8) -> Deed
    ensures { result ≡ rests s number }
{
    at_rest(s, number, 0, s.attempts, Says::Nothing, Writes::None)
}

// A refusal as the link rules it, with this place and so many attempts.
fn refuse(s: Standing, why: Refusal, place: u8, attempts: u8) -> Deed
    ensures { result ≡ refuses s (number_of why) place attempts }
{
    let mode = link::fall(s.facts.link, s.mode);
    Deed {
        number: why.number(),
        place,
        mode,
        attempts,
        rate: speed_in(s.facts.link, mode, s.speed),
        ..stay(s, Says::Refusal, Writes::None)
    }
}

// ACK, then another mode and so many attempts.
fn go_to(s: Standing, mode: u8, attempts: u8) -> Deed
    ensures { result ≡ goes_to s mode attempts }
{
    Deed {
        mode,
        attempts,
        rate: speed_in(s.facts.link, mode, s.speed),
        ..stay(s, Says::Accepted, Writes::None)
    }
}

// The identification, then mode 1.
fn sign_on(s: Standing, writes: Writes) -> Deed
    ensures { result ≡ signs_on s writes }
{
    at_rest(s, 1, 1, s.attempts, Says::Identification, writes)
}

// A block at a speed, with the closed periods or without, then mode 0.
fn read_out(s: Standing, speed: u8, long: bool) -> Deed
    ensures { result ≡ reads_out s speed long }
{
    Deed {
        speed,
        mode: 0,
        rate: rest_speed(s.facts.link),
        long,
        ..stay(s, Says::Block, Writes::None)
    }
}

// The frame that asks for the password; the session keeps its speed.
fn invite(s: Standing, speed: u8) -> Deed
    ensures { result ≡ invites s speed }
{
    Deed {
        speed,
        mode: 2,
        rate: speed,
        ..stay(s, Says::Invitation, Writes::None)
    }
}

// A line has ended.
// Stays: what is asked of a `Standing` holds of C's record only where it was tested, and `Facts` is part of that record.
fn of_line(s: Standing, held: &[u8; HELD_PLACES as usize]) -> Deed
    requires { length s.facts.serial ≡ 10 }
    ensures { result ≡ line_deed s held.now }
{
    if s.mark == 1 {
        return rest(s, 0);
    }
    let serial = s.facts.serial;
    let line = text::first(held, s.count as usize);
    if link::signs_on(s.facts.link, line, &serial) {
        return sign_on(s, Writes::None);
    }
    if link::closes(s.facts.link, line) {
        return sign_on(s, Writes::Closed);
    }
    rest(s, 0)
}

// Whether five characters and one more are a confirmation with Y, at 9600 baud or, where the link has it, at 300.
// Stays: three words of one line, which is taken apart here and nowhere else.
fn confirms(link: u8, five: &[u8], c: u8, y: u8) -> bool
    ensures { result ≡ confirms link five.now c y }
{
    let fast = [line::ACK, b'0', b'5', y, line::CR];
    let slow = [line::ACK, b'0', b'0', y, line::CR];
    let ended = c == line::LF;
    (text::same(five, &fast) & ended) | (link::slow_too(link) & (text::same(five, &slow) & ended))
}

// Whether they confirm a reading.
fn wants_block(link: u8, five: &[u8], c: u8) -> bool
    ensures { result ≡ wants_block link five.now c }
{
    confirms(link, five, c, b'0') | confirms(link, five, c, b'7')
}

// Whether they confirm a reading with the closed periods.
fn wants_periods(link: u8, five: &[u8], c: u8) -> bool
    ensures { result ≡ wants_periods link five.now c }
{
    confirms(link, five, c, b'6')
}

// Whether they confirm programming.
fn wants_program(link: u8, five: &[u8], c: u8) -> bool
    ensures { result ≡ wants_program link five.now c }
{
    confirms(link, five, c, b'1')
}

// The speed identifier of a confirmation's digit.
// Stays: the C interface: a speed identifier is this number in the record and in the header.
fn speed_said(v: u8) -> u8
    ensures { result ≡ speed_said v }
{
    if v == b'5' { 5 } else { 0 }
}

// Six characters of confirmation, the last of them c.
fn of_confirmation(s: Standing, held: &[u8; HELD_PLACES as usize], c: u8, damaged: bool) -> Deed
    ensures { result ≡ confirmation_deed s held.now c damaged }
{
    let f = s.facts;
    let marked = (s.mark == 1) | damaged;
    if marked {
        return rest(s, 2);
    }
    let speed = speed_said(held[2]);
    let five = text::first(held, s.count as usize);
    if wants_block(f.link, five, c) {
        return read_out(s, speed, false);
    }
    if wants_periods(f.link, five, c) {
        return read_out(s, speed, true);
    }
    if wants_program(f.link, five, c) {
        return invite(s, speed);
    }
    rest(s, 2)
}

// P1 with eight digits.
// Stays: as `of_line`.
fn of_password(s: Standing, held: &[u8; HELD_PLACES as usize]) -> Deed
    requires { (s.attempts ≤ 3) × (length s.facts.password ≡ 8) }
    ensures { result ≡ password_deed s held.now }
{
    if s.attempts == 3 {
        return refuse(s, Refusal::LockedOut, 0, s.attempts);
    }
    let password = s.facts.password;
    if text::same(text::first(text::rest(held, 5), 8), &password) {
        return go_to(s, 4, 0);
    }
    refuse(s, Refusal::WrongPassword, 0, s.attempts + 1)
}

// W1 of a table.
fn of_row(s: Standing, t: TableNo) -> Deed
    ensures { result ≡ row_deed s t }
{
    if values::is_table(t, values::tables_of(s.facts.edition)) {
        return stay(s, Says::Accepted, Writes::RowSet(t));
    }
    refuse(s, Refusal::BadData, 0, s.attempts)
}

// What a decision comes to.
#[tactic(auto, unfolding(crate::specs::Deeds::verdict_deed, deciding::specs::Verdicts::command_of, deciding::specs::Verdicts::verdict_of))]
fn of_verdict(s: Standing, held: &[u8; HELD_PLACES as usize], v: Result<Command, Refusal>) -> Deed
    requires { (s.attempts ≤ 3) × (length s.facts.password ≡ 8) }
    ensures { result ≡ verdict_deed s held.now (verdict_of v) }
{
    match v {
        Err(why) => refuse(s, why, 0, s.attempts),
        Ok(Command::Leave) => go_to(s, 0, s.attempts),
        Ok(Command::Enter) => go_to(s, 3, s.attempts),
        Ok(Command::Password) => of_password(s, held),
        Ok(Command::Read(a)) => stay(s, Says::Asked(a), Writes::None),
        Ok(Command::WriteClock(c)) => stay(s, Says::Accepted, Writes::ClockSet(c)),
        Ok(Command::WriteAccount) => stay(s, Says::Accepted, Writes::AccountSet),
        Ok(Command::WriteTable(t)) => of_row(s, t),
    }
}

// A frame is whole: its held characters, and c as its BCC.
fn of_frame(s: Standing, held: &[u8; HELD_PLACES as usize], c: u8, damaged: bool) -> Deed
    requires { (s.attempts ≤ 3) × (length s.facts.password ≡ 8) }
    ensures { result ≡ frame_deed s held.now c damaged }
{
    let hurt = (s.mark == 1) | damaged;
    if hurt {
        let place = receiving::hurt_at(s.count, s.mark, s.place, damaged);
        return refuse(s, Refusal::Damaged, place, s.attempts);
    }
    let v = deciding::decide(
        values::tables_of(s.facts.edition),
        s.facts.decimals,
        s.mode,
        text::first(held, s.count as usize),
        false,
        c,
    );
    of_verdict(s, held, v)
}

// What is heard, where it is more than a character that is held or dropped.
#[tactic(auto, unfolding(crate::specs::Deeds::heard_deed, deciding::specs::Verdicts::number_of))]
pub fn of_hearing(
    s: Standing,
    held: &[u8; HELD_PLACES as usize],
    h: Hearing,
    c: u8,
    damaged: bool,
) -> Deed
    requires { (s.attempts ≤ 3) × ((length s.facts.serial ≡ 10) × (length s.facts.password ≡ 8)) }
    ensures { result ≡ heard_deed s held.now h c damaged }
{
    match h {
        Hearing::Drop | Hearing::Hold | Hearing::Restart | Hearing::Empty => rest(s, 0),
        Hearing::Line => of_line(s, held),
        Hearing::Confirm => of_confirmation(s, held, c, damaged),
        Hearing::Frame => of_frame(s, held, c, damaged),
        Hearing::TooLong => refuse(s, Refusal::TooLong, 0, s.attempts),
    }
}

// Silence in mode 1 is refused as the link rules it, at the link's speed.
fn interrupt(s: Standing) -> Deed
    ensures { result ≡ interrupted s }
{
    at_rest(s, 1, 0, s.attempts, Says::Refusal, Writes::None)
}

// Eight seconds of silence.
#[tactic(auto, unfolding(crate::specs::Deeds::silence_deed))]
pub fn of_silence(s: Standing) -> Deed
    ensures { result ≡ silence_deed s }
{
    match s.mode {
        0 => rest(s, 0),
        1 => interrupt(s),
        _ => rest(s, 1),
    }
}

// A session that starts anew.
pub fn of_power_up(s: Standing) -> Deed
    ensures { result ≡ starts s }
{
    at_rest(s, 1, 0, 0, Says::Nothing, Writes::None)
}

// The second that starts a month, after which the clock shows this.
fn of_month(s: Standing, c: Clock) -> Deed
    ensures { result ≡ month_started s c }
{
    Deed {
        empties: false,
        ..stay(s, Says::Nothing, Writes::MonthClosed(c))
    }
}

// A character.
fn of_character(s: Standing, held: &[u8; HELD_PLACES as usize], b: u8) -> Deed
    requires { (s.attempts ≤ 3) × ((length s.facts.serial ≡ 10) × (length s.facts.password ≡ 8)) }
    ensures { result ≡ character_deed s held.now b }
{
    let damaged = line::damaged(b);
    let c = crate::symbol_of(b);
    let h = receiving::hear(s.mode, s.count, receiving::last_in(held, s.count), c);
    of_hearing(s, held, h, c, damaged)
}

// An event that changes more than the receiver, the clock or the counters, or says something.
#[tactic(auto, unfolding(crate::specs::Deeds::left_deed))]
fn of_event(s: Standing, held: &[u8; HELD_PLACES as usize], clock: Clock, e: Event) -> Deed
    requires { (s.attempts ≤ 3) × ((length s.facts.serial ≡ 10) × (length s.facts.password ≡ 8)) }
    ensures { result ≡ left_deed s held.now clock e }
{
    match e {
        Event::Character(b) => of_character(s, held, b),
        Event::Silence => of_silence(s),
        Event::Tick => of_month(s, clock::next_second(clock)),
        Event::PowerUp => of_power_up(s),
        Event::Pulse(_) | Event::PulseOut(_) | Event::Unknown => rest(s, 0),
    }
}

// The same of a meter that is handed over but for its tables and its archive.
pub fn of_small(s: Small, e: Event) -> Deed
    requires { (s.attempts ≤ 3) × ((length s.plain.facts.serial ≡ 10) × (length s.plain.facts.password ≡ 8)) }
    ensures { result ≡ left_deed (standing_in s) s.receiver.held s.plain.clock e }
{
    let held = s.receiver.held;
    of_event(standing_in(s), &held, s.plain.clock, e)
}
