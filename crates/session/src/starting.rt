// How a session starts: all that it is told is tested before anything is sent.
ghost use Rattle.std.specs.Prelude.{◌≡◌, cond, ◌≤◌, eqb, length, replicate};
ghost use Rattle.text.specs.Writing.{holding};
ghost use Rattle.values.specs.Edition.{tables_of};
ghost use Rattle.values.specs.Registers.{good_digits};
ghost use Rattle.frames.specs.Frames.{on_wire};
ghost use Rattle.commands.specs.Spoken.{good_fields};
ghost use Rattle.session.specs.Messages.{read_of, reads_good};
ghost use Rattle.session.specs.Starting.{told_of, start_told, started_of, opened, opened_reads, opened_post, Starts};

use crate::standing::told_good;
use crate::{Begun, Refusal, Session, messages};
use values::{TableNo, ZoneNo};

// Two characters of a read, and at most so many of all.
const READS: usize = 64;

// What a session is told, but for its work.
#[derive(Clone, Copy)]
struct Told<'a> {
    edition: u8,
    decimals: u8,
    named: u8,
    serial: &'a [u8],
    access: u8,
    password: &'a [u8],
    kind: u8,
}

// Whether the head can build a read, of a meter with so many tables and of a family.
pub fn read_good(tables: u8, family: u8, letter: u8, n: u8) -> bool
    ensures { result ≡ good_fields tables family (read_of letter n) }
{
    match letter {
        b'T' => true,
        b'L' => true,
        b'K' => true,
        b'E' => (n == 0) | values::is_zone(ZoneNo(n)),
        b'G' => values::family::is_eqm(family) & ((n == 0) | values::is_zone(ZoneNo(n))),
        b'Z' => values::is_table(TableNo(n), tables),
        _ => false,
    }
}

// Whether it can build all of them.
fn reads_good(tables: u8, family: u8, work: &[u8]) -> bool
    ensures { result ≡ reads_good tables family work.now }
{
    let mut good = true;
    let mut rest = work;
    while let [letter, n, more @ ..] = rest {
        good = good & read_good(tables, family, *letter, *n);
        rest = more;
    }
    good & rest.is_empty()
}

// A serial or a password that was told with 1, else zeros. It has its length, which is tested once more so that the copy is compiled for it.
fn kept<const N: usize>(flag: u8, s: &[u8]) -> [u8; N]
    requires { flag ≡ 1 → length s.now ≡ N }
    ensures { result ≡ cond (eqb flag 1) s.now (replicate N 0) }
{
    if flag != 1 {
        return [0; N];
    }
    <[u8; N]>::try_from(s).unwrap()
}

// A serial or a password: the length is tested first, so that the test of the digits is compiled for it.
fn is_digits<const N: usize>(s: &[u8]) -> bool
    ensures { result ≡ good_digits N s.now }
{
    s.len() == N && values::is_digits(s, N)
}

// 9, or the session and its sign-on, which then can be built.
fn begin(told: Told, count: u8, good: bool, buf: &mut [u8]) -> Result<Begun, Refusal>
    requires { 64 ≤ length buf.old }
    ensures result { start_told result ≡ started_of (opened (told_of told.entry.edition told.entry.decimals told.entry.named told.entry.serial.now told.entry.access told.entry.password.now told.entry.kind) count good) }
    ensures held { buf.new ≡ holding buf.old (on_wire (opened (told_of told.entry.edition told.entry.decimals told.entry.named told.entry.serial.now told.entry.access told.entry.password.now told.entry.kind) count good).text) }
{
    let called = told_good(told.named, is_digits::<10>(told.serial));
    let entered = told_good(told.access, is_digits::<8>(told.password));
    if !((called & entered) & good) {
        return Err(Refusal::Field);
    }
    let session = Session {
        serial: kept(told.named, told.serial),
        password: kept(told.access, told.password),
        named: told.named,
        access: told.access,
        work: told.kind,
        count,
        sent: 1,
        fact: 0,
        edition: told.edition,
        decimals: told.decimals,
    };
    let length = messages::call(session, buf).unwrap();
    Ok(Begun { session, length })
}

// Reads: none gives 28, more than 32 give 29.
fn open_reads(told: Told, work: &[u8], buf: &mut [u8]) -> Result<Begun, Refusal>
    requires { 64 ≤ length buf.old }
    ensures result { start_told result ≡ started_of (opened_reads (told_of told.entry.edition told.entry.decimals told.entry.named told.entry.serial.now told.entry.access told.entry.password.now told.entry.kind) work.now) }
    ensures held { buf.new ≡ holding buf.old (on_wire (opened_reads (told_of told.entry.edition told.entry.decimals told.entry.named told.entry.serial.now told.entry.access told.entry.password.now told.entry.kind) work.now).text) }
{
    let n = work.len();
    if n == 0 {
        return Err(Refusal::NoReads);
    }
    if READS < n {
        return Err(Refusal::ManyReads);
    }
    let good = reads_good(values::tables_of(told.edition), told.decimals, work);
    begin(told, (n / 2) as u8, good, buf)
}

// A post of so many lines: `()` gives 30.
fn open_post(told: Told, lines: u8, buf: &mut [u8]) -> Result<Begun, Refusal>
    requires { 64 ≤ length buf.old }
    ensures result { start_told result ≡ started_of (opened_post (told_of told.entry.edition told.entry.decimals told.entry.named told.entry.serial.now told.entry.access told.entry.password.now told.entry.kind) lines) }
    ensures held { buf.new ≡ holding buf.old (on_wire (opened_post (told_of told.entry.edition told.entry.decimals told.entry.named told.entry.serial.now told.entry.access told.entry.password.now told.entry.kind) lines).text) }
{
    if told.access == 0 {
        return Err(Refusal::NoPassword);
    }
    begin(told, lines, true, buf)
}

// Starts a session: the meter's edition and its decimals, whom to call, how to enter, what to do. Nothing is sent where it is refused, and there is no session.
// Stays: a public function's parameters, which sessionlink hands on from C: whom, how and what are numbers, and `Told` is made of them here.
pub fn start(
    edition: u8,
    decimals: u8,
    named: u8,
    serial: &[u8],
    access: u8,
    password: &[u8],
    kind: u8,
    work: &[u8],
    buf: &mut [u8],
) -> Result<Begun, Refusal>
    ensures { Starts (told_of edition decimals named serial.now access password.now kind) work.now buf.old (start_told result) buf.new }
{
    if !values::is_edition(edition) {
        return Err(Refusal::NoEdition);
    }
    if !values::family::is_family(decimals) {
        return Err(Refusal::NoFamily);
    }
    if buf.len() < commands::ROOM {
        return Err(Refusal::Short);
    }
    let told = Told {
        edition,
        decimals,
        named,
        serial,
        access,
        password,
        kind,
    };
    match kind {
        0 => open_reads(told, work, buf),
        1 => {
            if let Err(refusal) = post::check(edition, work) {
                return Err(Refusal::NoPost(refusal.place()));
            }
            open_post(told, (work.len() / 36 % 256) as u8, buf)
        }
        _ => Err(Refusal::Field),
    }
}
