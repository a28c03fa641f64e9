// The meter as firmware holds it: the state lies in the host's record and is changed in place.
// A record is too long to be handed on, so these functions pass values on, and store what is small.
#![tactic(auto)]

ghost use Rattle.std.specs.Prelude.{◌≡◌, length};
ghost use Rattle.text.specs.Writing.{holding};
ghost use Rattle.frames.specs.Frames.{on_wire};
ghost use Rattle.meter.specs.Life.{event_of, met};
ghost use Rattle.settling.specs.Settling.{seen_in, said, settled_in};
ghost use Rattle.storing.specs.Replies.{reply_of};
ghost use Rattle.firmware.specs.Replies.{silent_reply, settled_reply};

use settling::{Moved, Settled};
use state::Meter;
use storing::Reply;

// A settled event has no reply, nor has one that is refused.
fn answer(number: u8, speed: u8) -> Reply
    ensures { result ≡ silent_reply number speed }
{
    Reply {
        number,
        length: 0,
        speed,
        place: 0,
    }
}

// What a settled event leaves of the record: a second the clock, a pulse the counters of its direction, a character the receiver; the rest of it is not stored.
fn settle(m: &mut Meter, settled: Settled) -> Reply
    ensures { (result ≡ settled_reply (said (seen_in m.old) settled)) × (m.new ≡ settled_in m.old (said (seen_in m.old) settled)) }
{
    match settled.moved {
        Some(Moved::Second(next)) => {
            m.registers.clock = next;
            answer(1, m.speed)
        }
        Some(Moved::CameIn(counters)) => {
            m.registers.counters = counters;
            answer(1, m.speed)
        }
        Some(Moved::WentOut(exported)) => {
            m.registers.exported = exported;
            answer(1, m.speed)
        }
        None => {
            receiving::hold(&mut m.receiver.held, settled.kept.holding);
            m.receiver.count = settled.kept.count;
            m.receiver.mark = settled.kept.mark;
            m.receiver.place = settled.kept.place;
            answer(0, m.speed)
        }
    }
}

// An event, told by a number and a value; the record becomes the next state.
pub fn meet_in_place(m: &mut Meter, kind: u8, value: u32, reply: &mut [u8]) -> Reply
    ensures { (result ≡ reply_of (met m.old (length reply.old) (event_of kind value)))
        × (m.new ≡ (met m.old (length reply.old) (event_of kind value)).next)
        × (reply.new ≡ holding reply.old (on_wire (met m.old (length reply.old) (event_of kind value)).reply)) }
{
    match settling::look(&*m, kind, value, reply.len()) {
        Ok(Some(settled)) => settle(m, settled),
        Ok(None) => storing::act_in_place(m, kind, value, reply),
        Err(refusal) => answer(refusal.number(), 0),
    }
}

// The same for C: the answer's number, with the reply's length, its speed and the place where the caller asks for them.
#[unsafe(no_mangle)]
pub extern "C" fn dirgemist_meter_meet(
    m: &mut Meter,
    kind: u8,
    value: u32,
    reply: &mut [u8],
    count: &mut usize,
    speed: &mut u8,
    place: &mut u8,
) -> u8
    ensures { (result ≡ (met m.old (length reply.old) (event_of kind value)).number)
        × (m.new ≡ (met m.old (length reply.old) (event_of kind value)).next)
        × (reply.new ≡ holding reply.old (on_wire (met m.old (length reply.old) (event_of kind value)).reply))
        × (count.new ≡ length (met m.old (length reply.old) (event_of kind value)).reply)
        × (speed.new ≡ (met m.old (length reply.old) (event_of kind value)).speed)
        × (place.new ≡ (met m.old (length reply.old) (event_of kind value)).place) }
{
    let r = meet_in_place(m, kind, value, reply);
    storing::tell(r, count, speed, place)
}
