// The exports of `firmware`, each with its clauses, as the static library that C and Rust link.
#![tactic(auto)]

ghost use Rattle.std.specs.Prelude.{◌≡◌, length};
ghost use Rattle.text.specs.Writing.{holding};
ghost use Rattle.frames.specs.Frames.{on_wire};
ghost use Rattle.meter.specs.Life.{event_of, met};

use state::Meter;

// An event, told by a number and a value; the record becomes the next state. The answer's number, with the reply's length, its speed and the place where the caller asks for them.
#[unsafe(no_mangle)]
pub extern "C" fn dirgemist_meter_meet(
    m: &mut Meter,
    kind: u8,
    value: u32,
    reply: &mut [u8],
    count: &mut usize,
    speed: &mut u8,
    place: &mut u8,
) -> u8
    ensures { (result ≡ (met m.old (length reply.old) (event_of kind value)).number)
        × (m.new ≡ (met m.old (length reply.old) (event_of kind value)).next)
        × (reply.new ≡ holding reply.old (on_wire (met m.old (length reply.old) (event_of kind value)).reply))
        × (count.new ≡ length (met m.old (length reply.old) (event_of kind value)).reply)
        × (speed.new ≡ (met m.old (length reply.old) (event_of kind value)).speed)
        × (place.new ≡ (met m.old (length reply.old) (event_of kind value)).place) }
{
    firmware::dirgemist_meter_meet(m, kind, value, reply, count, speed, place)
}
