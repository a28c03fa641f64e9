// The head's session for C: it lies in the host's record and is changed in place.
// The three functions of the header only pass values on.
#![tactic(auto)]

ghost use Rattle.std.specs.Prelude.{◌≡◌, length};
ghost use Rattle.text.specs.Writing.{holding};
ghost use Rattle.frames.specs.Frames.{on_wire};
ghost use Rattle.session.specs.Starting.{told_of, Starts};
ghost use Rattle.session.specs.Refusals.{place_of};
ghost use Rattle.session.specs.Turns.{step_told, step_of, replied, silent};

use session::{Outcome, Refusal, Session};

// The answer of a start, a reply or silence that is taken.
const DONE: u8 = 1;

// The place of a text that is no post, 0 of another refusal.
fn place_of(refusal: Refusal) -> usize
    ensures { result ≡ place_of refusal }
{
    match refusal {
        Refusal::NoPost(place) => place,
        _ => 0,
    }
}

// What a reply or silence comes to, handed out: its numbers, and the session after it in the record, which a refusal leaves as it is.
fn hand_out(
    step: Result<Outcome, Refusal>,
    session: &mut Session,
    fact: &mut u8,
    message: &mut u8,
    size: &mut usize,
) -> u8
    ensures { record { number = result; fact = fact.new; message = message.new; length = size.new; next = session.new } ≡ step_told session.old step }
{
    match step {
        Ok(
            Outcome::Says {
                message: number,
                length,
                next,
            },
        ) => {
            *fact = 0;
            *message = number;
            *size = length;
            *session = next;
            DONE
        }
        Ok(
            Outcome::Ends {
                fact: end,
                message: number,
                next,
            },
        ) => {
            *fact = end.number();
            *message = number;
            *size = 0;
            *session = next;
            DONE
        }
        Err(refusal) => {
            *fact = 0;
            *message = 0;
            *size = 0;
            refusal.number()
        }
    }
}

// A session in the record, whatever stood there: its sign-on, or a refusal and no session.
#[unsafe(no_mangle)]
pub extern "C" fn dirgemist_session_start(
    session: &mut Session,
    edition: u8,
    decimals: u8,
    named: u8,
    serial: &[u8],
    access: u8,
    password: &[u8],
    kind: u8,
    work: &[u8],
    out: &mut [u8],
    size: &mut usize,
    place: &mut usize,
) -> u8
    ensures { Starts (told_of edition decimals named serial.now access password.now kind) work.now out.old (record { number = result; place = place.new; length = size.new; session = session.new }) out.new }
{
    match session::starting::start(
        edition, decimals, named, serial, access, password, kind, work, out,
    ) {
        Ok(begun) => {
            *session = begun.session;
            *size = begun.length;
            *place = 0;
            DONE
        }
        Err(refusal) => {
            *session = Session::NONE;
            *size = 0;
            *place = place_of(refusal);
            refusal.number()
        }
    }
}

// A reply, whole, as the bytes of the line.
#[unsafe(no_mangle)]
pub extern "C" fn dirgemist_session_reply(
    session: &mut Session,
    work: &[u8],
    reply: &[u8],
    out: &mut [u8],
    fact: &mut u8,
    message: &mut u8,
    size: &mut usize,
) -> u8
    ensures { (record { number = result; fact = fact.new; message = message.new; length = size.new; next = session.new } ≡ step_of (replied session.old work.now reply.now (length out.old)))
        × (out.new ≡ holding out.old (on_wire (replied session.old work.now reply.now (length out.old)).text)) }
{
    let step = session::hear(*session, work, reply, out);
    hand_out(step, session, fact, message, size)
}

// No reply came.
#[unsafe(no_mangle)]
pub extern "C" fn dirgemist_session_silence(
    session: &mut Session,
    fact: &mut u8,
    message: &mut u8,
) -> u8
    ensures { record { number = result; fact = fact.new; message = message.new; length = 0; next = session.new } ≡ step_of (silent session.old) }
{
    let mut none = 0;
    hand_out(
        session::hear_nothing(*session),
        session,
        fact,
        message,
        &mut none,
    )
}
