// A record of the state with one thing anew, and all else as it was.
ghost use Rattle.std.specs.Prelude.{◌≡◌, length};
ghost use Rattle.state.specs.Making.{empty_receiver};
ghost use Rattle.state.specs.Setting.{with_held, with_mark, with_receiver, in_mode, with_attempts, with_registers, with_account, with_clock, with_counters, with_exported, with_tables, with_archive, with_zones, with_total, row_start, zone_place, counter_of, speed_in};

use crate::link::{link_of, rest_speed};
use crate::{ALL_ROWS, Archive, Counters, HELD_PLACES, Meter, Receiver, Registers};
use clock::Clock;
use values::{ROW_LENGTH, TableNo, ZoneNo};

pub fn empty_receiver() -> Receiver
    ensures { result ≡ empty_receiver }
{
    Receiver {
        count: 0,
        held: [0; HELD_PLACES as usize],
        mark: 0,
        place: 0,
    }
}

// These characters, so many of them.
// Stays: a setter names its fields; the like of it sets others.
pub fn with_held(r: Receiver, held: [u8; HELD_PLACES as usize], count: u8) -> Receiver
    ensures { result ≡ with_held r held count }
{
    let mut next = r;
    next.held = held;
    next.count = count;
    next
}

// This mark, and the place that it speaks of.
// Stays: as `with_held`.
pub fn with_mark(r: Receiver, mark: u8, place: u8) -> Receiver
    ensures { result ≡ with_mark r mark place }
{
    let mut next = r;
    next.mark = mark;
    next.place = place;
    next
}

pub fn with_receiver(m: Meter, r: Receiver) -> Meter
    ensures { result ≡ with_receiver m r }
{
    let mut next = m;
    next.receiver = r;
    next
}

// A session keeps its speed; modes 0 and 1 have that of the link.
pub fn speed_in(link: u8, mode: u8, speed: u8) -> u8
    ensures { result ≡ speed_in link mode speed }
{
    if 2 <= mode { speed } else { rest_speed(link) }
}

// In another mode, the receiver empty.
pub fn in_mode(m: Meter, mode: u8) -> Meter
    ensures { result ≡ in_mode m mode }
{
    let mut next = m;
    next.mode = mode;
    next.speed = speed_in(link_of(m), mode, m.speed);
    next.receiver = empty_receiver();
    next
}

pub fn with_attempts(m: Meter, attempts: u8) -> Meter
    ensures { result ≡ with_attempts m attempts }
{
    let mut next = m;
    next.attempts = attempts;
    next
}

pub fn with_registers(m: Meter, g: Registers) -> Meter
    ensures { result ≡ with_registers m g }
{
    let mut next = m;
    next.registers = g;
    next
}

pub fn with_account(g: Registers, account: [u8; 10]) -> Registers
    ensures { result ≡ with_account g account }
{
    let mut next = g;
    next.account = account;
    next
}

pub fn with_clock(g: Registers, c: Clock) -> Registers
    ensures { result ≡ with_clock g c }
{
    let mut next = g;
    next.clock = c;
    next
}

pub fn with_counters(g: Registers, counters: Counters) -> Registers
    ensures { result ≡ with_counters g counters }
{
    let mut next = g;
    next.counters = counters;
    next
}

pub fn with_exported(g: Registers, exported: Counters) -> Registers
    ensures { result ≡ with_exported g exported }
{
    let mut next = g;
    next.exported = exported;
    next
}

pub fn with_tables(g: Registers, rows: [u8; ALL_ROWS]) -> Registers
    ensures { result ≡ with_tables g rows }
{
    let mut next = g;
    next.tables = rows;
    next
}

pub fn with_archive(g: Registers, a: Archive) -> Registers
    ensures { result ≡ with_archive g a }
{
    let mut next = g;
    next.archive = a;
    next
}

pub fn with_zones(c: Counters, zones: [u32; 4]) -> Counters
    ensures { result ≡ with_zones c zones }
{
    let mut next = c;
    next.zones = zones;
    next
}

pub fn with_total(c: Counters, total: u32) -> Counters
    ensures { result ≡ with_total c total }
{
    let mut next = c;
    next.total = total;
    next
}

// Where a zone's counter stands.
pub fn zone_place(z: ZoneNo) -> usize
    ensures { result ≡ zone_place z.0 }
{
    (z.0 as usize).saturating_sub(1)
}

// The counter of a zone; 0 where there is no such zone.
pub fn counter_of(c: Counters, z: ZoneNo) -> u32
    ensures { result ≡ counter_of c z.0 }
{
    let at = zone_place(z);
    if at < c.zones.len() { c.zones[at] } else { 0 }
}

// Ten characters as an array.
pub fn ten(s: &[u8]) -> [u8; 10]
    requires { length s.now ≡ 10 }
    ensures { result ≡ s.now }
{
    <[u8; 10]>::try_from(s).unwrap()
}

// Where a table's row starts. A product of longer numbers is a call on a small processor.
pub fn row_start(t: TableNo) -> usize
    ensures { result ≡ row_start t.0 }
{
    ((t.0 as u32).saturating_sub(1) * ROW_LENGTH as u32) as usize
}
