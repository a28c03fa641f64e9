// The meter's state: what it is made of, what is well-formed, and how a new one is made.
#![tactic(auto)]

ghost use Rattle.std.specs.Prelude.{Err, ◌≡◌, ◌+◌, ◌-◌, ◌*◌, ◌%◌, ◌<◌, ◌≤◌, true, ◌&&◌, length, take, drop};
ghost use Rattle.line.specs.Runs.{every};
ghost use Rattle.text.specs.Classes.{between};
ghost use Rattle.values.specs.Edition.{is_edition};
ghost use Rattle.values.specs.Registers.{good_serial, good_password};
ghost use Rattle.state.specs.Sizes.{most_held, held_places, first_rows, all_rows};
ghost use Rattle.state.specs.Fours.{in_row, last_good};
ghost use Rattle.state.specs.WellFormed.{limit, first_good, held_good, zones_below, total, counters_good, directions_good, tables_good, link_good, facts_good, factory_good, edition_of, well_formed, speed_good, hurt_good};
ghost use Rattle.state.specs.Making.{no_counters, new_rows, meter_of, blank_meter, not_made, made_of, number_of, told};

use clock::{Clock, Date, Stamp, Time};
use values::{ROW_LENGTH, TABLE_PLACES, family};

pub mod closing;
pub mod link;
pub mod pieces;
pub mod setting;
mod words;

// A receiver holds so many characters at most.
pub const MOST_HELD: u8 = 63;

// It has one place more, which stays 0: 64 are tested a word or a vector at a time, with nothing over.
pub const HELD_PLACES: u8 = 64;

// The rows of all tables, one after the other.
pub const ALL_ROWS: usize = TABLE_PLACES * ROW_LENGTH;

// Those of edition 1, whose tables are one fewer.
const FIRST_ROWS: usize = (TABLE_PLACES - 1) * ROW_LENGTH;

// The least room of a reply buffer.
pub const REPLY_ROOM: usize = 4_096;

// An archive keeps so many periods at most.
pub const PERIODS: usize = 12;

// What was received of a line or frame so far; the mark is 1 where damage was seen, else 0, and the place is that of the first damaged character, or 0.
// The count comes first, so that a meter's held characters start at a whole word.
// Stays: the C interface: hosts lend this record.
#[repr(C)]
#[derive(Clone, Copy)]
pub struct Receiver {
    pub count: u8,
    pub held: [u8; HELD_PLACES as usize],
    pub mark: u8,
    pub place: u8,
}

// What a meter has for life. The decimals are those of its family, and 0 names document 01's.
#[repr(C)]
#[derive(Clone, Copy)]
pub struct Facts {
    pub serial: [u8; 10],
    pub password: [u8; 8],
    pub edition: u8,
    pub link: u8,
    pub decimals: u8,
}

// The zones' counters of one direction, in units of the last place, and their sum, which rolls over where they do.
#[repr(C)]
#[derive(Clone, Copy)]
pub struct Counters {
    pub zones: [u32; 4],
    pub total: u32,
}

// A closed period: when it was closed, and the zones' counters of both directions as they stood.
#[repr(C)]
#[derive(Clone, Copy)]
pub struct Period {
    pub closed: Stamp,
    pub zones: [u32; 4],
    pub exported: [u32; 4],
}

// The closed periods, the newest first; unused places are all 0.
// Stays: the C interface: hosts lend this record.
#[repr(C)]
#[derive(Clone, Copy)]
pub struct Archive {
    pub periods: [Period; PERIODS],
    pub count: u8,
}

// What a refused frame never changes. `counters` are those of what came in, `exported` of what went out.
#[repr(C)]
#[derive(Clone, Copy)]
pub struct Registers {
    pub facts: Facts,
    pub account: [u8; 10],
    pub clock: Clock,
    pub counters: Counters,
    pub exported: Counters,
    pub tables: [u8; ALL_ROWS],
    pub archive: Archive,
}

// Mode: 0 listening, 1 confirmation, 2 password, 3 read-only, 4 programming. The speed identifier is that of the session, 0 or 5, as confirmed, or else that of the link.
#[repr(C)]
#[derive(Clone, Copy)]
pub struct Meter {
    pub mode: u8,
    pub attempts: u8,
    pub speed: u8,
    pub receiver: Receiver,
    pub registers: Registers,
}

// Why no meter is made from these facts.
#[derive(Clone, Copy)]
pub enum Refusal {
    // An edition that there is none of: 16.
    NoEdition,
    // Decimals that no family has: 18.
    NoFamily,
    // Another fact: 15.
    BadFacts,
}

impl Refusal {
    // Document 01's number.
    #[tactic(auto, unfolding(crate::specs::Making::number_of))]
    pub fn number(self) -> u8
        ensures { result ≡ number_of self }
    {
        match self {
            Refusal::NoEdition => 16,
            Refusal::NoFamily => 18,
            Refusal::BadFacts => 15,
        }
    }
}

// How many characters are held at most.
// Stays: it is no kind, but how many.
#[tactic(auto, unfolding(crate::specs::WellFormed::limit))]
pub fn limit_of(mode: u8) -> u8
    ensures { result ≡ limit mode }
{
    match mode {
        0 => 31,
        1 => 5,
        _ => MOST_HELD,
    }
}

// Whether the first held character is the one that the mode asks for.
fn first_good(mode: u8, count: u8, first: u8) -> bool
    ensures { result ≡ first_good mode count first }
{
    if mode == 0 {
        return (count == 0) | (first == b'/');
    }
    (count == 0) | ((mode == 1) | (first == line::SOH))
}

// Whether a place is that of a held character where there is a mark, and 0 where there is none.
fn hurt_good(count: u8, mark: u8, place: u8) -> bool
    ensures { result ≡ hurt_good count mark place }
{
    if mark == 1 {
        return place < count;
    }
    place == 0
}

// Whether the places from the count on, up to a whole word, hold 0.
// Stays: the count is C's, beside the characters that it counts, and is below the limit only where `limit_of` was tested.
fn part_unused(held: &[u8; HELD_PLACES as usize], count: u8) -> bool
    requires { count ≤ most_held }
    ensures { result ≡ every (between 0 0) (drop (count % 4) (take 4 (drop (count - count % 4) held.now))) }
{
    let used = count % 4;
    let at = (count - used) as usize;
    words::part(held[at], held[at + 1], held[at + 2], held[at + 3], used) == 0
}

// Whether 64 characters are within 0 to 127, and 0 in each word behind that of the count. Both are gathered four at a time.
// Stays: tried with `&[u8; 64]` in place of a length that is asked for, here and in the two like it; what is known of a lent array bounds none of its
// characters by its place (`(k : ℕ) → get_or s k 0 < 256`), and the law of four needs that.
fn words_held(held: &[u8], count: u8) -> bool
    requires { (length held.now ≡ held_places) × (count ≤ most_held) }
    ensures { result ≡ (every (between 0 127) held.now && every (between 0 0) (drop (count - count % 4 + 4) held.now)) }
{
    let mut all: u32 = 0;
    let mut behind: u32 = 0;
    for word in 0..HELD_PLACES as u32 / 4 {
        let at = (word * 4) as usize;
        let four = words::four(held[at], held[at + 1], held[at + 2], held[at + 3]);
        all = all | four;
        behind = behind | words::four_if((count as u32) < word * 4, four);
    }
    words::is_seven(all) & (behind == 0)
}

// Whether 64 characters are within 0 to 127, and 0 from the count on.
// Stays: the characters and their count are fields of C's record, lent apart.
fn held_good(held: &[u8; HELD_PLACES as usize], count: u8) -> bool
    requires { count ≤ most_held }
    ensures { result ≡ held_good held.now count }
{
    words_held(held, count) & part_unused(held, count)
}

// Whether four counters are below an end. They are named one by one, so that no copy of them is made to be counted through.
fn four_below(zones: [u32; 4], end: u32) -> bool
    ensures { result ≡ zones_below end zones }
{
    (zones[0] < end) & ((zones[1] < end) & ((zones[2] < end) & (zones[3] < end)))
}

// A number below twice an end, rolled over there: small processors have no division.
fn rolled(n: u32, end: u32) -> u32
    requires { n < 2 * end }
    ensures { result ≡ n % end }
{
    if n < end {
        return n;
    }
    n - end
}

// The sum of the zones, which rolls over where they do; the one place where they are added up. It is below four ends, so it rolls over at two of them and then at one.
fn total_of(c: Counters, end: u32) -> u32
    requires { ((1 ≤ end) × (end ≤ 1000000000)) × (zones_below end c.zones ≡ true) }
    ensures { result ≡ total end c }
{
    let z = c.zones;
    let sum = z[0] + z[1] + z[2] + z[3];
    rolled(rolled(sum, 2 * end), end)
}

fn counters_good(c: Counters, end: u32) -> bool
    requires { (1 ≤ end) × (end ≤ 1000000000) }
    ensures { result ≡ counters_good end c }
{
    four_below(c.zones, end) && c.total == total_of(c, end)
}

// Whether what came in and what went out is good.
fn directions_good(counters: Counters, exported: Counters, family: u8) -> bool
    ensures { result ≡ directions_good family counters exported }
{
    counters_good(counters, family::counter_end(family))
        && counters_good(exported, family::export_end(family))
}

// What strays from '1' to '4' in the rows that every edition has, gathered four characters at a time.
fn rows_stray(s: &[u8]) -> u32
    requires { length s.now ≡ all_rows }
    ensures { in_row result ≡ every (between 49 52) (take first_rows s.now) }
{
    let mut bad: u32 = 0;
    for word in 0..FIRST_ROWS as u32 / 4 {
        let at = (word * 4) as usize;
        bad = bad | words::above_one(words::four(s[at], s[at + 1], s[at + 2], s[at + 3]));
    }
    bad
}

// Whether the last row is one of edition 2, or else unused. Both are gathered, so that four characters stay one number.
fn last_good(s: &[u8], used: bool) -> bool
    requires { length s.now ≡ all_rows }
    ensures { result ≡ last_good used (drop first_rows s.now) }
{
    let mut bad: u32 = 0;
    let mut bits: u32 = 0;
    for word in FIRST_ROWS as u32 / 4..ALL_ROWS as u32 / 4 {
        let at = (word * 4) as usize;
        let four = words::four(s[at], s[at + 1], s[at + 2], s[at + 3]);
        bad = bad | words::above_one(four);
        bits = bits | four;
    }
    if used {
        return words::is_in_row(bad);
    }
    bits == 0
}

// Whether so many rows hold '1' to '4', and the places behind them 0.
fn tables_good(s: &[u8; ALL_ROWS], tables: u8) -> bool
    requires { (24 ≤ tables) × (tables ≤ 25) }
    ensures { result ≡ tables_good tables s.now }
{
    let rows = words::is_in_row(rows_stray(s));
    rows & last_good(s, tables == TABLE_PLACES as u8)
}

fn link_good(link: u8) -> bool
    ensures { result ≡ link_good link }
{
    (link == 1) | (link == 2)
}

// Whether serial and password are digits, gathered four characters at a time; of the serial the last four overlap.
fn numbers_good(serial: [u8; 10], password: [u8; 8]) -> bool
    ensures { result ≡ (good_serial serial && good_password password) }
{
    let s = words::beside_digits(serial[0], serial[1], serial[2], serial[3])
        | (words::beside_digits(serial[4], serial[5], serial[6], serial[7])
            | words::beside_digits(serial[6], serial[7], serial[8], serial[9]));
    let p = words::beside_digits(password[0], password[1], password[2], password[3])
        | words::beside_digits(password[4], password[5], password[6], password[7]);
    words::is_seven(s | p)
}

// Whether what a meter has for life is good.
fn facts_good(f: Facts) -> bool
    ensures { result ≡ facts_good f }
{
    numbers_good(f.serial, f.password)
        & (values::is_edition(f.edition) & (link_good(f.link) & family::is_family(f.decimals)))
}

// Whether the facts that a meter is made from are good.
fn factory_good(f: Facts, account: &[u8], clock: Clock) -> bool
    ensures { result ≡ factory_good f account.now clock }
{
    if facts_good(f) {
        if values::is_account(account) {
            return clock::is_clock(clock);
        }
    }
    false
}

// Whether a speed is one that the mode may have: that of the link, or 9600 baud in a session.
fn speed_good(link: u8, mode: u8, speed: u8) -> bool
    ensures { result ≡ speed_good link mode speed }
{
    (speed == link::rest_speed(link)) | ((2 <= mode) & (speed == 5))
}

// Whether a meter is of an edition that there is.
pub fn has_edition(m: Meter) -> bool
    ensures { result ≡ is_edition (edition_of m) }
{
    values::is_edition(m.registers.facts.edition)
}

// Whether a state is well-formed.
pub fn is_well_formed(m: Meter) -> bool
    ensures { result ≡ well_formed m }
{
    let small = pieces::small_good(
        m.mode,
        m.attempts,
        m.speed,
        m.registers.facts,
        m.registers.account,
        m.registers.clock,
        m.registers.counters,
        m.registers.exported,
    );
    // What is lent on stands in locals of its own: lent as parts of `m`, all of `m` would be copied.
    let held = m.receiver.held;
    let tables = m.registers.tables;
    let runs = pieces::runs_good(
        m.mode,
        m.receiver.count,
        &held,
        m.receiver.mark,
        m.receiver.place,
        m.registers.facts.edition,
        &tables,
    );
    small & (runs & closing::archive_good(m.registers.archive, m.registers.facts.decimals))
}

// A row of '1' for each table of an edition, and 0 in the places behind them.
fn new_rows(edition: u8) -> [u8; ALL_ROWS]
    ensures { result ≡ new_rows edition }
{
    if edition == 2 {
        return [b'1'; ALL_ROWS];
    }
    let mut rows = [0u8; ALL_ROWS];
    text::put(&mut rows, 0, &[b'1'; FIRST_ROWS]);
    rows
}

fn no_counters() -> Counters
    ensures { result ≡ no_counters }
{
    Counters {
        zones: [0; 4],
        total: 0,
    }
}

// A new meter: counters 0, attempts 0, all tables '1', no closed period, mode 0, an empty receiver.
fn meter_of(facts: Facts, account: [u8; 10], clock: Clock) -> Meter
    ensures { result ≡ meter_of facts account clock }
{
    let none = no_counters();
    Meter {
        mode: 0,
        attempts: 0,
        speed: link::rest_speed(facts.link),
        receiver: setting::empty_receiver(),
        registers: Registers {
            facts,
            account,
            clock,
            counters: none,
            exported: none,
            tables: new_rows(facts.edition),
            archive: closing::empty_archive(),
        },
    }
}

// The blank meter: zeros, ten spaces and 2000-01-01 00:00:00; edition 1, link 1, document 01's family.
pub fn blank() -> Meter
    ensures { result ≡ blank_meter }
{
    let clock = Clock {
        date: Date {
            year: 2000,
            month: 1,
            day: 1,
        },
        time: Time {
            hour: 0,
            minute: 0,
            second: 0,
        },
    };
    let facts = Facts {
        serial: [b'0'; 10],
        password: [b'0'; 8],
        edition: 1,
        link: 1,
        decimals: 0,
    };
    meter_of(facts, [b' '; 10], clock)
}

// Why bad facts are refused.
pub fn not_made(edition: u8, decimals: u8) -> Refusal
    ensures { told (Err result) ≡ not_made edition decimals }
{
    if !values::is_edition(edition) {
        return Refusal::NoEdition;
    }
    if !family::is_family(decimals) {
        return Refusal::NoFamily;
    }
    Refusal::BadFacts
}

// A new meter from the factory's facts.
pub fn make(facts: Facts, account: [u8; 10], clock: Clock) -> Result<Meter, Refusal>
    ensures { told result ≡ made_of facts account clock }
{
    if factory_good(facts, &account, clock) {
        return Ok(meter_of(facts, account, clock));
    }
    Err(not_made(facts.edition, facts.decimals))
}
