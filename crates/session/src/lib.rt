// The head's half of the conversation: a session that is told what to do, says one message after another, and stops at the first reply that is not right.
// The work, a list of reads or a post, is lent with each call, and each message is made from the work of that call.
#![tactic(auto)]

ghost use Rattle.std.specs.Prelude.{◌≡◌, ◌⊎◌, ◌<◌, length, IfSome, IfNone};
ghost use Rattle.text.specs.Writing.{holding};
ghost use Rattle.frames.specs.Frames.{on_wire};
ghost use Rattle.session.specs.Refusals.{number_of, fact_number};
ghost use Rattle.session.specs.Turns.{step_told, step_of, replied, silent};

mod messages;
mod standing;
pub mod starting;
mod turning;

// What a session was told, and where it stands: `named` 1 calls the meter of the serial, 0 any; `access` 1 enters with the password, 0 with `()`;
// `work` 1 is a post, 0 reads; `count` messages of work; `sent` is the number of the message sent last; `fact` is 0 while it goes on;
// `edition` is the meter's, and `decimals` its family.
// Stays: the C interface: hosts lend this record, so its kinds and its fact are numbers.
#[repr(C)]
#[derive(Clone, Copy)]
pub struct Session {
    pub serial: [u8; 10],
    pub password: [u8; 8],
    pub named: u8,
    pub access: u8,
    pub work: u8,
    pub count: u8,
    pub sent: u8,
    pub fact: u8,
    pub edition: u8,
    pub decimals: u8,
}

impl Session {
    // No session.
    pub const NONE: Session = Session {
        serial: [0; 10],
        password: [0; 8],
        named: 0,
        access: 0,
        work: 0,
        count: 0,
        sent: 0,
        fact: 0,
        edition: 0,
        decimals: 0,
    };
}

// How a session ended: after the last message, at a NAK, at a wrong reply, at silence. A record holds 0 while it goes on.
#[derive(Clone, Copy, Debug, PartialEq, Eq)]
pub enum Fact {
    Done = 1,
    Nak = 2,
    Wrong = 3,
    Silent = 4,
}

impl Fact {
    pub fn number(self) -> u8
        ensures { result ≡ fact_number self }
    {
        self as u8
    }

    // The fact of a number that a record holds, if it is one.
    pub(crate) fn of(number: u8) -> Option<Fact>
        ensures some { IfSome result (λ fact. fact_number fact ≡ number) }
        ensures none { IfNone result ((number ≡ 0) ⊎ (4 < number)) }
    {
        match number {
            1 => Some(Fact::Done),
            2 => Some(Fact::Nak),
            3 => Some(Fact::Wrong),
            4 => Some(Fact::Silent),
            _ => None,
        }
    }
}

// What a reply, or silence, comes to: the next message, of that number and length, or an end at the message just answered; and the session after it.
#[derive(Clone, Copy)]
pub enum Outcome {
    Says {
        message: u8,
        length: usize,
        next: Session,
    },
    Ends {
        fact: Fact,
        message: u8,
        next: Session,
    },
}

// A session that starts, and the length of its sign-on.
#[derive(Clone, Copy)]
pub struct Begun {
    pub session: Session,
    pub length: usize,
}

// Why no session starts, or why one takes no reply: a field outside its rule or a kind of work that is none; an edition that there is not;
// decimals that no meter has; a buffer under 64 bytes; a text that is no post, and where; no reads; more than 32; a post with `()`;
// a value that no session has, or work that is not this session's.
#[derive(Clone, Copy, Debug, PartialEq, Eq)]
pub enum Refusal {
    Field,
    NoEdition,
    NoFamily,
    Short,
    NoPost(usize),
    NoReads,
    ManyReads,
    NoPassword,
    NoSession,
}

impl Refusal {
    // Document 01's number of it; 31 is ours.
    pub fn number(self) -> u8
        ensures { result ≡ number_of self }
    {
        match self {
            Refusal::Field => 9,
            Refusal::NoEdition => 16,
            Refusal::NoFamily => 18,
            Refusal::Short => 19,
            Refusal::NoPost(_) => 20,
            Refusal::NoReads => 28,
            Refusal::ManyReads => 29,
            Refusal::NoPassword => 30,
            Refusal::NoSession => 31,
        }
    }
}

// A reply, whole, as the wire bytes that came.
pub fn hear(s: Session, work: &[u8], reply: &[u8], buf: &mut [u8]) -> Result<Outcome, Refusal>
    ensures result { step_told s result ≡ step_of (replied s work.now reply.now (length buf.old)) }
    ensures held { buf.new ≡ holding buf.old (on_wire (replied s work.now reply.now (length buf.old)).text) }
{
    if buf.len() < commands::ROOM {
        return Err(Refusal::Short);
    }
    if !standing::is_good(s) {
        return Err(Refusal::NoSession);
    }
    match Fact::of(s.fact) {
        Some(fact) => Ok(turning::end(s, fact)),
        None => turning::answer(s, work, reply, buf),
    }
}

// No reply came.
pub fn hear_nothing(s: Session) -> Result<Outcome, Refusal>
    ensures { step_told s result ≡ step_of (silent s) }
{
    if !standing::is_good(s) {
        return Err(Refusal::NoSession);
    }
    Ok(turning::end(s, Fact::of(s.fact).unwrap_or(Fact::Silent)))
}
