// A meter's link, which it has for life: 1 the optical one, 2 the wired one.
ghost use Rattle.std.specs.Prelude.{◌≡◌};
ghost use Rattle.state.specs.Link.{link_of, is_wired, rest_speed};

use crate::Meter;

pub fn link_of(m: Meter) -> u8
    ensures { result ≡ link_of m }
{
    m.registers.facts.link
}

pub fn is_wired(link: u8) -> bool
    ensures { result ≡ is_wired link }
{
    link == 2
}

// The speed identifier where no session has one of its own.
// Stays: the C interface: a speed identifier is this number in the record.
pub fn rest_speed(link: u8) -> u8
    ensures { result ≡ rest_speed link }
{
    if is_wired(link) { 5 } else { 0 }
}
