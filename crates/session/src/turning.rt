// What the head makes of a reply.
ghost use Rattle.std.specs.Prelude.{◌≡◌, true, Ok, ◌≤◌, length};
ghost use Rattle.text.specs.Writing.{holding};
ghost use Rattle.frames.specs.Frames.{on_wire};
ghost use Rattle.session.specs.Standing.{session_good};
ghost use Rattle.session.specs.Refusals.{fact_number};
ghost use Rattle.session.specs.Turns.{step_told, step_of, standing, ends, right_read, right_work, right_at, answered_right, answered};

use crate::{Fact, Outcome, Refusal, Session, messages, starting};

// The session with another message sent, or with a fact that ends it.
fn stand(s: Session, sent: u8, fact: u8) -> Session
    ensures { result ≡ standing s sent fact }
{
    Session { sent, fact, ..s }
}

// The session ends with a fact.
pub fn end(s: Session, fact: Fact) -> Outcome
    ensures { step_told s (Ok result) ≡ step_of (ends s (fact_number fact)) }
{
    Outcome::Ends {
        fact,
        message: s.sent,
        next: stand(s, s.sent, fact.number()),
    }
}

// Whether a reply is right for a read.
fn is_right_read(tables: u8, family: u8, letter: u8, n: u8, reply: &[u8]) -> bool
    ensures { result ≡ right_read tables family letter n reply.now }
{
    starting::read_good(tables, family, letter, n) & judging::is_answer(family, letter, n, reply)
}

// Whether a reply is right for a message of the work.
fn is_right_work(s: Session, work: &[u8], i: u8, reply: &[u8]) -> bool
    ensures { result ≡ right_work s work.now i reply.now }
{
    if s.work == 1 {
        return judging::is_ack(reply);
    }
    let at = i as usize * 2;
    let tables = values::tables_of(s.edition);
    is_right_read(
        tables,
        s.decimals,
        text::at(work, at),
        text::at(work, at + 1),
        reply,
    )
}

// Whether a reply is right for the message of a number.
fn is_right(s: Session, work: &[u8], n: u8, reply: &[u8]) -> bool
    requires { s.count ≤ 32 }
    ensures { result ≡ right_at s work.now n reply.now }
{
    match n {
        1 => judging::is_identification(s.edition, reply),
        2 => judging::is_password_ask(reply),
        3 => judging::is_ack(reply),
        _ if n <= s.count + 3 => is_right_work(s, work, n.saturating_sub(4), reply),
        _ => judging::is_ack(reply),
    }
}

// The reply was right: the next message, or the end.
fn go_on(s: Session, work: &[u8], buf: &mut [u8]) -> Result<Outcome, Refusal>
    requires { (session_good s ≡ true) × (64 ≤ length buf.old) }
    ensures result { step_told s result ≡ step_of (answered_right s work.now) }
    ensures held { buf.new ≡ holding buf.old (on_wire (answered_right s work.now).text) }
{
    if s.count + 4 <= s.sent {
        return Ok(end(s, Fact::Done));
    }
    let n = s.sent + 1;
    let Ok(length) = messages::build(s, work, n, buf) else {
        return Err(Refusal::NoSession);
    };
    Ok(Outcome::Says {
        message: n,
        length,
        next: stand(s, n, 0),
    })
}

// A reply to a session that goes on.
pub fn answer(s: Session, work: &[u8], reply: &[u8], buf: &mut [u8]) -> Result<Outcome, Refusal>
    requires { (session_good s ≡ true) × (64 ≤ length buf.old) }
    ensures result { step_told s result ≡ step_of (answered s work.now reply.now) }
    ensures held { buf.new ≡ holding buf.old (on_wire (answered s work.now reply.now).text) }
{
    if judging::is_nak(reply) {
        return Ok(end(s, Fact::Nak));
    }
    if is_right(s, work, s.sent, reply) {
        return go_on(s, work, buf);
    }
    Ok(end(s, Fact::Wrong))
}
