// A counter's text in two halves, its first eight characters and its last, each as one number.
ghost use Rattle.std.specs.Prelude.{◌≡◌, ◌&&◌, ◌-◌, ◌<◌, ◌^◌};
ghost use Rattle.eights.specs.Lanes.{paired};
ghost use Rattle.values.specs.Numbers.{Above};
ghost use Rattle.values.specs.Counters.{keeps_form, first_form, last_form, upper_of, counter_of};

// What eight characters of a form have in their lanes: the least characters, the bits that those of a lane share, and what a digit has to spare.
#[derive(Clone, Copy)]
pub struct Form {
    pub low: u64,
    pub bits: u64,
    pub spare: u64,
}

// The first eight characters of a family's counters: `######.#`, `#####.##` or `####.###`.
// Stays: a table of forms, as `last_of` is another.
fn first_of(family: u8) -> Form
    ensures { result ≡ first_form family }
{
    match family {
        0 | 2 => Form {
            low: 0x302E_3030_3030_3030,
            bits: 0xF0FF_F0F0_F0F0_F0F0,
            spare: 0x0600_0606_0606_0606,
        },
        3 => Form {
            low: 0x3030_2E30_3030_3030,
            bits: 0xF0F0_FFF0_F0F0_F0F0,
            spare: 0x0606_0006_0606_0606,
        },
        _ => Form {
            low: 0x3030_302E_3030_3030,
            bits: 0xF0F0_F0FF_F0F0_F0F0,
            spare: 0x0606_0600_0606_0606,
        },
    }
}

// The last eight: `.###*kWh`, `#.##*kWh` or `####*kWh`.
// Stays: as `first_of`.
fn last_of(family: u8) -> Form
    ensures { result ≡ last_form family }
{
    match family {
        0 | 3 => Form {
            low: 0x6857_6B2A_3030_302E,
            bits: 0xFFFF_FFFF_F0F0_F0FF,
            spare: 0x0606_0600,
        },
        2 => Form {
            low: 0x6857_6B2A_3030_2E30,
            bits: 0xFFFF_FFFF_F0F0_FFF0,
            spare: 0x0606_0006,
        },
        _ => Form {
            low: 0x6857_6B2A_3030_3030,
            bits: 0xFFFF_FFFF_F0F0_F0F0,
            spare: 0x0606_0606,
        },
    }
}

fn keeps_form(w: u64, f: Form) -> bool
    ensures { result ≡ keeps_form f w }
{
    eights::keeps_form(w, f.low, f.bits, f.spare)
}

// Whether the first and the last eight characters are those of a family's counters.
pub fn is_counter(w: u64, v: u64, family: u8) -> bool
    ensures { result ≡ (keeps_form (first_form family) w && keeps_form (last_form family) v) }
{
    keeps_form(w, first_of(family)) & keeps_form(v, last_of(family))
}

// A counter's digits but the last two: four in front, then those in the third pair of the first eight characters and in the first pair of the last.
fn upper(front: u32, third: u32, first: u32, family: u8) -> u32
    requires { (front < 2 ^ 15) × (third < 256) × (first < 256) }
    ensures { (result ≡ upper_of family front third first) × (result < 2 ^ 25) }
{
    match family {
        0 => (front * 100 + third) * 10 + first,
        2 => front * 100 + third,
        3 => front * 100 + third + first,
        _ => front * 100 + first,
    }
}

// The number that the pairs of both say.
fn counter_of(p: u64, q: u64, family: u8) -> u32
    ensures { result ≡ counter_of family p q }
{
    let front = (p % 0x100) as u32 * 100 + (p / 0x1_0000 % 0x100) as u32;
    let third = (p / 0x1_0000_0000 % 0x100) as u32;
    let first = (q % 0x100) as u32;
    upper(front, third, first, family) * 100 + (q / 0x1_0000 % 0x100) as u32
}

// The number in those characters.
pub fn counter_in(w: u64, v: u64, family: u8) -> u32
    requires { Above w (first_form family).low × Above v (last_form family).low }
    ensures { result ≡ counter_of family (paired (w - (first_form family).low)) (paired (v - (last_form family).low)) }
{
    let first = first_of(family);
    let last = last_of(family);
    counter_of(
        eights::pairs(w, first.low),
        eights::pairs(v, last.low),
        family,
    )
}
