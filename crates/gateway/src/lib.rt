// For a gateway that delivers complete frames: the state lies in the host's record and is changed in place. A library of its own, so that in `firmware`
// the test of the state goes on having one caller. A record is too long to be handed on, so these functions pass values on, and store what is small.
#![tactic(auto)]

ghost use Rattle.std.specs.Prelude.{◌≡◌, length};
ghost use Rattle.text.specs.Writing.{holding};
ghost use Rattle.frames.specs.Frames.{on_wire};
ghost use Rattle.whole.specs.Whole.{frame_at};
ghost use Rattle.whole.specs.Looking.{number_of, speed_of, refuses};
ghost use Rattle.storing.specs.Replies.{reply_of};
ghost use Rattle.gateway.specs.Replies.{refused_reply};

use state::Meter;
use storing::Reply;
use whole::Refusal;

// What is refused has no reply.
fn refused(e: Refusal) -> Reply
    ensures { result ≡ refused_reply (refuses (number_of e) (speed_of e)) }
{
    Reply {
        number: e.number(),
        length: 0,
        speed: e.speed(),
        place: 0,
    }
}

// A frame that comes whole; the record becomes the next state. What is refused stores nothing; else the receiver is filled where it lies, and the last byte acted on.
pub fn frame_in_place(m: &mut Meter, frame: &[u8], reply: &mut [u8]) -> Reply
    ensures { (result ≡ reply_of (frame_at m.old (length reply.old) frame.now))
        × (m.new ≡ (frame_at m.old (length reply.old) frame.now).next)
        × (reply.new ≡ holding reply.old (on_wire (frame_at m.old (length reply.old) frame.now).reply)) }
{
    let formed = lent::is_formed(&*m);
    let looked = whole::look(
        m.mode,
        m.speed,
        m.receiver.count,
        m.registers.facts.edition,
        formed,
        frame,
        reply.len(),
    );
    match looked {
        Ok(gathered) => {
            m.receiver = gathered.receiver;
            storing::act_in_place(m, 0, gathered.last as u32, reply)
        }
        Err(refusal) => refused(refusal),
    }
}

// The same for C: the answer's number, with the reply's length, its speed and the place where the caller asks for them.
#[unsafe(no_mangle)]
pub extern "C" fn dirgemist_meter_frame(
    m: &mut Meter,
    frame: &[u8],
    reply: &mut [u8],
    count: &mut usize,
    speed: &mut u8,
    place: &mut u8,
) -> u8
    ensures { (result ≡ (frame_at m.old (length reply.old) frame.now).number)
        × (m.new ≡ (frame_at m.old (length reply.old) frame.now).next)
        × (reply.new ≡ holding reply.old (on_wire (frame_at m.old (length reply.old) frame.now).reply))
        × (count.new ≡ length (frame_at m.old (length reply.old) frame.now).reply)
        × (speed.new ≡ (frame_at m.old (length reply.old) frame.now).speed)
        × (place.new ≡ (frame_at m.old (length reply.old) frame.now).place) }
{
    let r = frame_in_place(m, frame, reply);
    storing::tell(r, count, speed, place)
}
