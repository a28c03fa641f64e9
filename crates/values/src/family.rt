// A meter's family, known by its decimals: 0 is document 01's, 2 to 4 are those of EQM meters.
ghost use Rattle.std.specs.Prelude.{◌≡◌, ◌≤◌};
ghost use Rattle.values.specs.Family.{is_family, is_eqm, counter_digits, counter_decimals, counter_end, export_end};

// Whether there is such a family.
pub fn is_family(family: u8) -> bool
    ensures { result ≡ is_family family }
{
    (family == 0) | ((2 <= family) & (family <= 4))
}

pub fn is_eqm(family: u8) -> bool
    ensures { result ≡ is_eqm family }
{
    family != 0
}

// How many digits show a counter.
pub fn counter_digits(family: u8) -> usize
    ensures value { result ≡ counter_digits family }
    ensures few { (8 ≤ result) × (result ≤ 9) }
{
    match family {
        0 => 9,
        _ => 8,
    }
}

// How many of them are decimals of a kWh.
pub fn counter_decimals(family: u8) -> usize
    ensures value { result ≡ counter_decimals family }
    ensures few { (2 ≤ result) × (result ≤ 4) }
{
    match family {
        0 => 3,
        2 => 2,
        3 => 3,
        _ => 4,
    }
}

// Where a counter rolls over.
pub fn counter_end(family: u8) -> u32
    ensures value { result ≡ counter_end family }
    ensures many { (100000000 ≤ result) × (result ≤ 1000000000) }
{
    match family {
        0 => 1_000_000_000,
        _ => 100_000_000,
    }
}

// Where one of what goes out does; of document 01's family it is always 0.
// Stays: it is no kind, but an end.
pub fn export_end(family: u8) -> u32
    ensures value { result ≡ export_end family }
    ensures some { (1 ≤ result) × (result ≤ 100000000) }
{
    match family {
        0 => 1,
        _ => 100_000_000,
    }
}
