// What the head says: every command, built in a lent buffer of at least 64 bytes, or refused with nothing written.
#![tactic(auto)]

ghost use Rattle.std.specs.Prelude.{◌≡◌, true, false, ◌&&◌, [], ◌∷◌, ◌++◌, ◌+◌, ◌<◌, ◌≤◌, length, map, Ok, IfOk, OnOk, OnErr, IsErrOf};
ghost use Rattle.line.specs.Quoted.{chars};
ghost use Rattle.line.specs.Characters.{sent};
ghost use Rattle.clock.specs.Seconds.{real_clock};
ghost use Rattle.values.specs.Edition.{is_edition, tables_of, row_length};
ghost use Rattle.values.specs.Registers.{good_digits, good_serial, good_password, good_account, good_row, good_table, good_zone};
ghost use Rattle.values.specs.Texts.{table_text, clock_text};
ghost use Rattle.frames.specs.Frames.{sealed, frame_of, bare_frame, on_wire};
ghost use Rattle.frames.specs.Commands.{B0, P1, R1, W1, ask_clock, ask_serial, ask_account, lettered, ask_energy, ask_export, ask_table, set_clock, set_account, set_table};
ghost use Rattle.frames.specs.Session.{sign_on, closing_sign_on, sign_on_to, wired_sign_on, confirmation, good_speed, enter_data, password_data};
ghost use Rattle.commands.specs.Building.{good_choice, number_of, told, with_serial, Builds, BuildsFor, Room, Small, Made};
ghost use Rattle.commands.specs.declared.Refusal.TheVariants.{Field, NoEdition, Short};

use clock::Clock;
use values::{TableNo, ZoneNo};

// The number of a command that is built.
pub const DONE: u8 = 1;

// Why none is, and document 01's number of it: a field outside its rule; an edition that there is not; a buffer under 64 bytes.
#[derive(Clone, Copy, Debug, PartialEq, Eq)]
pub enum Refusal {
    Field = 9,
    NoEdition = 16,
    Short = 19,
}

impl Refusal {
    pub fn number(self) -> u8
        ensures { result ≡ number_of self }
    {
        self as u8
    }
}

// The least buffer that a command is built in.
pub const ROOM: usize = 64;

// How long the fields are.
const SERIAL: usize = 10;

const PASSWORD: usize = 8;

const ACCOUNT: usize = 10;

// As they are sent: SOH, `1`, STX and `)` have a one on top, for their parity. The others of P1 are sent as they are.
const SENT_SOH: u8 = 0x81;

const SENT_ONE: u8 = 0xB1;

const SENT_STX: u8 = 0x82;

const SENT_CLOSE: u8 = 0xA9;

// A command is built where there is room for it,
fn room(buf: &[u8]) -> Result<(), Refusal>
    ensures ok { OnOk result (64 ≤ length buf.now) }
    ensures err { OnErr result ((length buf.now < 64) × (IsErrOf result Short)) }
{
    if buf.len() < ROOM {
        Err(Refusal::Short)
    } else {
        Ok(())
    }
}

// and where its fields lie within their rules.
fn field(good: bool) -> Result<(), Refusal>
    ensures ok { OnOk result (good ≡ true) }
    ensures err { OnErr result ((good ≡ false) × (IsErrOf result Field)) }
{
    if good { Ok(()) } else { Err(Refusal::Field) }
}

// The fields. The length of each is tested first, so that the loops over it are compiled for it.
fn is_digits<const N: usize>(s: &[u8]) -> bool
    ensures { result ≡ good_digits N s.now }
{
    s.len() == N && values::is_digits(s, N)
}

fn is_account(s: &[u8]) -> bool
    ensures { result ≡ good_account s.now }
{
    s.len() == ACCOUNT && values::is_whole_account(s)
}

fn is_row(s: &[u8]) -> bool
    ensures { result ≡ good_row s.now }
{
    s.len() == values::ROW_LENGTH && values::is_row(s)
}

// A line: its start, its content and its end, with parity.
// Stays: `Room` is that fact's one name already, and speaks of three lent slices.
fn line_of(buf: &mut [u8], start: &[u8], content: &[u8], end: &[u8]) -> usize
    requires { Room buf.old start.now content.now × (length end.now ≤ 3) }
    ensures { Made buf.old (on_wire (start.now ++ (content.now ++ end.now))) (told (Ok result)) buf.new }
{
    let a = text::put(buf, 0, start);
    let b = text::put(buf, a, content);
    let n = text::put(buf, b, end);
    frames::send(buf, n);
    n
}

// A frame: its start through the opening bracket, and its content; the closing bracket, ETX and BCC come after it.
fn frame(buf: &mut [u8], start: &[u8], content: &[u8]) -> usize
    requires { Room buf.old start.now content.now }
    ensures { Made buf.old (on_wire (sealed (start.now ++ (content.now ++ chars ")")))) (told (Ok result)) buf.new }
{
    let a = text::put(buf, 0, start);
    let b = text::put(buf, a, content);
    let c = text::put(buf, b, b")");
    frames::seal(buf, c)
}

// The same made in an array that nothing else names, and put at once: of a long field's loops the compiler makes vector code then.
fn aside(buf: &mut [u8], start: &[u8], content: &[u8]) -> usize
    requires { Room buf.old start.now content.now }
    ensures { Made buf.old (on_wire (sealed (start.now ++ (content.now ++ chars ")")))) (told (Ok result)) buf.new }
{
    let mut made = [0u8; ROOM];
    let n = frame(&mut made, start, content);
    text::put(buf, 0, text::first(&made, n));
    n
}

// A command that lies ready with its parity.
fn put_made(buf: &mut [u8], made: &[u8]) -> usize
    requires { length made.now ≤ length buf.old }
    ensures { Made buf.old made.now (told (Ok result)) buf.new }
{
    text::put(buf, 0, made)
}

// A frame where the buffer has room and the field lies within its rule; else refused, and nothing is written.
fn build(buf: &mut [u8], good: bool, start: &[u8], content: &[u8]) -> Result<usize, Refusal>
    requires { Small good start.now content.now }
    ensures { Builds buf.old good (on_wire (sealed (start.now ++ (content.now ++ chars ")")))) (told result) buf.new }
{
    room(buf)?;
    field(good)?;
    Ok(frame(buf, start, content))
}

// The sign-on `/?!`.
pub fn sign_on(buf: &mut [u8]) -> Result<usize, Refusal>
    ensures { Builds buf.old true (on_wire sign_on) (told result) buf.new }
{
    room(buf)?;
    Ok(line_of(buf, b"/?", b"", b"!\r\n"))
}

// The sign-on `/C!`, at which the meter closes a period.
pub fn close(buf: &mut [u8]) -> Result<usize, Refusal>
    ensures { Builds buf.old true (on_wire closing_sign_on) (told result) buf.new }
{
    room(buf)?;
    Ok(line_of(buf, b"/C", b"", b"!\r\n"))
}

// The sign-ons to a serial as they are sent, with a blank for each of its digits: `/`, space and CR have a one on top, for their parity.
const CALL: [u8; 16] = *b"\xAF?___\xA0_______!\x8D\n";

const WIRED: [u8; 15] = *b"\xAFA___._______\x8D\n";

// One of them with the serial, of which the first eight digits and the last have their parity at once.
fn with_serial<const N: usize>(call: [u8; N], serial: &[u8]) -> [u8; N]
    requires { (13 ≤ N) × (length serial.now ≡ 10) }
    ensures { result ≡ with_serial call.entry (map sent serial.now) }
{
    let a = eights::sent_eight(serial, 0);
    let z = eights::sent_eight(serial, 2);
    let mut made = call;
    made[2] = a[0];
    made[3] = a[1];
    made[4] = a[2];
    made[6] = z[1];
    made[7] = z[2];
    made[8] = z[3];
    made[9] = z[4];
    made[10] = z[5];
    made[11] = z[6];
    made[12] = z[7];
    made
}

// The sign-on to the meter of a serial, given by its ten digits.
pub fn sign_on_to(buf: &mut [u8], serial: &[u8]) -> Result<usize, Refusal>
    ensures { Builds buf.old (good_serial serial.now) (on_wire (sign_on_to serial.now)) (told result) buf.new }
{
    room(buf)?;
    field(is_digits::<SERIAL>(serial))?;
    Ok(put_made(buf, &with_serial(CALL, serial)))
}

// The sign-on on the wired link, to the meter of a serial or, with zeros, to whichever is there.
pub fn sign_on_wired(buf: &mut [u8], serial: &[u8]) -> Result<usize, Refusal>
    ensures { Builds buf.old (good_serial serial.now) (on_wire (wired_sign_on serial.now)) (told result) buf.new }
{
    room(buf)?;
    field(is_digits::<SERIAL>(serial))?;
    Ok(put_made(buf, &with_serial(WIRED, serial)))
}

// The confirmation, with the character '0' (300 baud) or '5' (9600) as speed, and with '0', '1', '6' or '7'.
pub fn confirm(buf: &mut [u8], speed: u8, choice: u8) -> Result<usize, Refusal>
    ensures { Builds buf.old (good_speed speed && good_choice choice) (on_wire (confirmation speed choice)) (told result) buf.new }
{
    room(buf)?;
    let slow_or_fast = (speed == b'0') | (speed == b'5');
    let block = ((choice == b'0') | (choice == b'6')) | (choice == b'7');
    field(slow_or_fast & (block | (choice == b'1')))?;
    Ok(line_of(buf, b"\x060", &[speed, choice], b"\r\n"))
}

// P1 with empty brackets: reading only.
pub fn enter(buf: &mut [u8]) -> Result<usize, Refusal>
    ensures { Builds buf.old true (on_wire (frame_of P1 enter_data)) (told result) buf.new }
{
    build(buf, true, b"\x01P1\x02(", b"")
}

// P1 with a password, as it is sent.
fn sent_password(password: &[u8]) -> [u8; 16]
    requires { length password.now ≡ 8 }
    ensures { result ≡ on_wire (frame_of P1 (password_data password.now)) }
{
    let p = eights::sent_eight(password, 0);
    let sum = eights::bcc_eight(password, 0) ^ line::bcc(b"P1\x02()\x03");
    [
        SENT_SOH,
        b'P',
        SENT_ONE,
        SENT_STX,
        b'(',
        p[0],
        p[1],
        p[2],
        p[3],
        p[4],
        p[5],
        p[6],
        p[7],
        SENT_CLOSE,
        line::ETX,
        line::wire(sum),
    ]
}

// P1 with a password of eight digits.
pub fn password(buf: &mut [u8], password: &[u8]) -> Result<usize, Refusal>
    ensures { Builds buf.old (good_password password.now) (on_wire (frame_of P1 (password_data password.now))) (told result) buf.new }
{
    room(buf)?;
    field(is_digits::<PASSWORD>(password))?;
    Ok(put_made(buf, &sent_password(password)))
}

// R1 for the clock.
pub fn read_clock(buf: &mut [u8]) -> Result<usize, Refusal>
    ensures { Builds buf.old true (on_wire (frame_of R1 ask_clock)) (told result) buf.new }
{
    build(buf, true, b"\x01R1\x02T(", b"")
}

// R1 for the serial.
pub fn read_serial(buf: &mut [u8]) -> Result<usize, Refusal>
    ensures { Builds buf.old true (on_wire (frame_of R1 ask_serial)) (told result) buf.new }
{
    build(buf, true, b"\x01R1\x02L(", b"")
}

// R1 for the account.
pub fn read_account(buf: &mut [u8]) -> Result<usize, Refusal>
    ensures { Builds buf.old true (on_wire (frame_of R1 ask_account)) (told result) buf.new }
{
    build(buf, true, b"\x01R1\x02K(", b"")
}

// R1 for the total.
pub fn read_total(buf: &mut [u8]) -> Result<usize, Refusal>
    ensures { Builds buf.old true (on_wire (frame_of R1 (ask_energy 0))) (told result) buf.new }
{
    build(buf, true, b"\x01R1\x02E0(", b"")
}

// R1 for the total of what went out.
pub fn read_total_out(buf: &mut [u8]) -> Result<usize, Refusal>
    ensures { Builds buf.old true (on_wire (frame_of R1 (ask_export 0))) (told result) buf.new }
{
    build(buf, true, b"\x01R1\x02G0(", b"")
}

// R1 with a letter and a zone.
fn ask_zone(buf: &mut [u8], letter: u8, zone: ZoneNo) -> Result<usize, Refusal>
    ensures { Builds buf.old (good_zone zone.0) (on_wire (frame_of R1 (lettered letter zone.0))) (told result) buf.new }
{
    room(buf)?;
    field(values::is_zone(zone))?;
    let n = zone.0;
    Ok(frame(
        buf,
        &[line::SOH, b'R', b'1', line::STX, letter, b'0' + n, b'('],
        b"",
    ))
}

// R1 for a zone's energy.
pub fn read_zone(buf: &mut [u8], zone: ZoneNo) -> Result<usize, Refusal>
    ensures { Builds buf.old (good_zone zone.0) (on_wire (frame_of R1 (ask_energy zone.0))) (told result) buf.new }
{
    ask_zone(buf, b'E', zone)
}

// R1 for what went out in a zone.
pub fn read_zone_out(buf: &mut [u8], zone: ZoneNo) -> Result<usize, Refusal>
    ensures { Builds buf.old (good_zone zone.0) (on_wire (frame_of R1 (ask_export zone.0))) (told result) buf.new }
{
    ask_zone(buf, b'G', zone)
}

// R1 for a table, of so many tables.
pub fn read_table_of(buf: &mut [u8], tables: u8, table: TableNo) -> Result<usize, Refusal>
    ensures { Builds buf.old (good_table tables table.0) (on_wire (frame_of R1 (ask_table table.0))) (told result) buf.new }
{
    let good = values::is_table(table, tables);
    let n = table.0;
    build(
        buf,
        good,
        b"\x01R1\x02Z(",
        &[b'0' + n / 10 % 10, b'0' + n % 10],
    )
}

// How many tables the meters of an edition have, if there is such an edition.
fn tables(edition: u8) -> Result<u8, Refusal>
    ensures ok { IfOk result (λ n. (is_edition edition ≡ true) × (n ≡ tables_of edition)) }
    ensures err { OnErr result ((is_edition edition ≡ false) × (IsErrOf result NoEdition)) }
{
    if values::is_edition(edition) {
        Ok(values::tables_of(edition))
    } else {
        Err(Refusal::NoEdition)
    }
}

// R1 for a table of an edition's meter.
pub fn read_table(buf: &mut [u8], edition: u8, table: TableNo) -> Result<usize, Refusal>
    ensures { BuildsFor edition buf.old (good_table (tables_of edition) table.0) (on_wire (frame_of R1 (ask_table table.0))) (told result) buf.new }
{
    read_table_of(buf, tables(edition)?, table)
}

// The clock as it is written.
fn shown_clock(c: Clock) -> [u8; 19]
    ensures { result ≡ clock_text c }
{
    let mut shown = [0u8; 19];
    values::writing::put_clock(&mut shown, 0, c);
    shown
}

// W1 for the clock.
pub fn write_clock(buf: &mut [u8], c: Clock) -> Result<usize, Refusal>
    ensures { Builds buf.old (real_clock c) (on_wire (frame_of W1 (set_clock c))) (told result) buf.new }
{
    let good = clock::is_clock(c);
    build(buf, good, b"\x01W1\x02T(", &shown_clock(c))
}

// W1 for the account.
pub fn write_account(buf: &mut [u8], account: &[u8]) -> Result<usize, Refusal>
    ensures { Builds buf.old (good_account account.now) (on_wire (frame_of W1 (set_account account.now))) (told result) buf.new }
{
    room(buf)?;
    field(is_account(account))?;
    Ok(aside(buf, b"\x01W1\x02K(", account))
}

// A table's number and its row, as they are written.
fn shown_table(t: TableNo, row: &[u8]) -> [u8; 27]
    requires { length row.now ≡ row_length }
    ensures { result ≡ table_text t.0 ++ (chars ";" ++ row.now) }
{
    let mut shown = [0u8; 27];
    let a = values::writing::put_table(&mut shown, 0, t);
    let b = text::put(&mut shown, a, b";");
    text::put(&mut shown, b, row);
    shown
}

// W1 for a table, of so many tables.
pub fn write_table_of(
    buf: &mut [u8],
    tables: u8,
    table: TableNo,
    row: &[u8],
) -> Result<usize, Refusal>
    ensures { Builds buf.old (good_table tables table.0 && good_row row.now) (on_wire (frame_of W1 (set_table table.0 row.now))) (told result) buf.new }
{
    room(buf)?;
    field(values::is_table(table, tables) & is_row(row))?;
    Ok(aside(buf, b"\x01W1\x02Z(", &shown_table(table, row)))
}

// W1 for a table of an edition's meter.
pub fn write_table(
    buf: &mut [u8],
    edition: u8,
    table: TableNo,
    row: &[u8],
) -> Result<usize, Refusal>
    ensures { BuildsFor edition buf.old (good_table (tables_of edition) table.0 && good_row row.now) (on_wire (frame_of W1 (set_table table.0 row.now))) (told result) buf.new }
{
    write_table_of(buf, tables(edition)?, table, row)
}

// B0, the end of a session.
pub fn sign_off(buf: &mut [u8]) -> Result<usize, Refusal>
    ensures { Builds buf.old true (on_wire (bare_frame B0)) (told result) buf.new }
{
    room(buf)?;
    let a = text::put(buf, 0, b"\x01B0");
    Ok(frames::seal(buf, a))
}
