// The exports of `gateway`, each with its clauses, as the static library that C and Rust link.
#![tactic(auto)]

ghost use Rattle.std.specs.Prelude.{◌≡◌, length};
ghost use Rattle.text.specs.Writing.{holding};
ghost use Rattle.frames.specs.Frames.{on_wire};
ghost use Rattle.whole.specs.Whole.{frame_at};

use state::Meter;

// A frame that comes whole; the record becomes the next state. The answer's number, with the reply's length, its speed and the place where the caller asks for them.
#[unsafe(no_mangle)]
pub extern "C" fn dirgemist_meter_frame(
    m: &mut Meter,
    frame: &[u8],
    reply: &mut [u8],
    count: &mut usize,
    speed: &mut u8,
    place: &mut u8,
) -> u8
    ensures { (result ≡ (frame_at m.old (length reply.old) frame.now).number)
        × (m.new ≡ (frame_at m.old (length reply.old) frame.now).next)
        × (reply.new ≡ holding reply.old (on_wire (frame_at m.old (length reply.old) frame.now).reply))
        × (count.new ≡ length (frame_at m.old (length reply.old) frame.now).reply)
        × (speed.new ≡ (frame_at m.old (length reply.old) frame.now).speed)
        × (place.new ≡ (frame_at m.old (length reply.old) frame.now).place) }
{
    gateway::dirgemist_meter_frame(m, frame, reply, count, speed, place)
}
