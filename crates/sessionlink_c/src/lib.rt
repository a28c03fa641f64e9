// The exports of `sessionlink`, each with its clauses, as the static library that C and Rust link.
#![tactic(auto)]

ghost use Rattle.std.specs.Prelude.{◌≡◌, length};
ghost use Rattle.text.specs.Writing.{holding};
ghost use Rattle.frames.specs.Frames.{on_wire};
ghost use Rattle.session.specs.Starting.{told_of, Starts};
ghost use Rattle.session.specs.Turns.{step_of, replied, silent};

use session::Session;

// A session in the record, whatever stood there: its sign-on, or a refusal and no session.
#[unsafe(no_mangle)]
pub extern "C" fn dirgemist_session_start(
    session: &mut Session,
    edition: u8,
    decimals: u8,
    named: u8,
    serial: &[u8],
    access: u8,
    password: &[u8],
    kind: u8,
    work: &[u8],
    out: &mut [u8],
    size: &mut usize,
    place: &mut usize,
) -> u8
    ensures { Starts (told_of edition decimals named serial.now access password.now kind) work.now out.old (record { number = result; place = place.new; length = size.new; session = session.new }) out.new }
{
    sessionlink::dirgemist_session_start(
        session, edition, decimals, named, serial, access, password, kind, work, out, size, place,
    )
}

// A reply, whole, as the bytes of the line.
#[unsafe(no_mangle)]
pub extern "C" fn dirgemist_session_reply(
    session: &mut Session,
    work: &[u8],
    reply: &[u8],
    out: &mut [u8],
    fact: &mut u8,
    message: &mut u8,
    size: &mut usize,
) -> u8
    ensures { (record { number = result; fact = fact.new; message = message.new; length = size.new; next = session.new } ≡ step_of (replied session.old work.now reply.now (length out.old)))
        × (out.new ≡ holding out.old (on_wire (replied session.old work.now reply.now (length out.old)).text)) }
{
    sessionlink::dirgemist_session_reply(session, work, reply, out, fact, message, size)
}

// No reply came.
#[unsafe(no_mangle)]
pub extern "C" fn dirgemist_session_silence(
    session: &mut Session,
    fact: &mut u8,
    message: &mut u8,
) -> u8
    ensures { record { number = result; fact = fact.new; message = message.new; length = 0; next = session.new } ≡ step_of (silent session.old) }
{
    sessionlink::dirgemist_session_silence(session, fact, message)
}
