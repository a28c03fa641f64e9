// The head's commands, for C: each writes a command at the front of a buffer of at least 64 bytes and its length to a number, or writes nothing and 0.
ghost use Rattle.std.specs.Prelude.{◌≡◌, true, ◌&&◌};
ghost use Rattle.clock.specs.Seconds.{real_clock, date_of, time_of};
ghost use Rattle.values.specs.Edition.{tables_of};
ghost use Rattle.values.specs.Registers.{good_serial, good_password, good_account, good_row, good_table, good_zone};
ghost use Rattle.frames.specs.Frames.{frame_of, bare_frame, on_wire};
ghost use Rattle.frames.specs.Commands.{B0, P1, R1, W1, ask_clock, ask_serial, ask_account, ask_energy, ask_export, ask_table, set_clock, set_account, set_table};
ghost use Rattle.frames.specs.Session.{sign_on, closing_sign_on, sign_on_to, wired_sign_on, confirmation, good_speed, enter_data, password_data};
ghost use Rattle.commands.specs.Building.{good_choice, told, Builds, BuildsFor};

use clock::{Clock, Date, Time};
use commands::Refusal;
use values::{TableNo, ZoneNo};

// The length goes to its number, and 1 or the number of a refusal is the answer.
fn answer(built: Result<usize, Refusal>, size: &mut usize) -> u8
    ensures { record { number = result; length = size.new } ≡ told built }
{
    match built {
        Ok(n) => {
            *size = n;
            commands::DONE
        }
        Err(refusal) => {
            *size = 0;
            refusal.number()
        }
    }
}

// The sign-on to any meter.
#[unsafe(no_mangle)]
pub extern "C" fn dirgemist_head_sign_on(out: &mut [u8], size: &mut usize) -> u8
    ensures { Builds out.old (true) (on_wire sign_on) (record { number = result; length = size.new }) out.new }
{
    answer(commands::sign_on(out), size)
}

// The sign-on that closes a period.
#[unsafe(no_mangle)]
pub extern "C" fn dirgemist_head_close(out: &mut [u8], size: &mut usize) -> u8
    ensures { Builds out.old (true) (on_wire closing_sign_on) (record { number = result; length = size.new }) out.new }
{
    answer(commands::close(out), size)
}

// The sign-on to the meter of a serial.
#[unsafe(no_mangle)]
pub extern "C" fn dirgemist_head_sign_on_to(serial: &[u8], out: &mut [u8], size: &mut usize) -> u8
    ensures { Builds out.old (good_serial serial.now) (on_wire (sign_on_to serial.now)) (record { number = result; length = size.new }) out.new }
{
    answer(commands::sign_on_to(out, serial), size)
}

// The sign-on on the wired link.
#[unsafe(no_mangle)]
pub extern "C" fn dirgemist_head_sign_on_wired(
    serial: &[u8],
    out: &mut [u8],
    size: &mut usize,
) -> u8
    ensures { Builds out.old (good_serial serial.now) (on_wire (wired_sign_on serial.now)) (record { number = result; length = size.new }) out.new }
{
    answer(commands::sign_on_wired(out, serial), size)
}

// The confirmation, at 300 baud or 9600.
#[unsafe(no_mangle)]
pub extern "C" fn dirgemist_head_confirm(
    speed: u8,
    choice: u8,
    out: &mut [u8],
    size: &mut usize,
) -> u8
    ensures { Builds out.old (good_speed speed && good_choice choice) (on_wire (confirmation speed choice)) (record { number = result; length = size.new }) out.new }
{
    answer(commands::confirm(out, speed, choice), size)
}

// P1 with empty brackets.
#[unsafe(no_mangle)]
pub extern "C" fn dirgemist_head_enter(out: &mut [u8], size: &mut usize) -> u8
    ensures { Builds out.old (true) (on_wire (frame_of P1 enter_data)) (record { number = result; length = size.new }) out.new }
{
    answer(commands::enter(out), size)
}

// P1 with a password.
#[unsafe(no_mangle)]
pub extern "C" fn dirgemist_head_password(password: &[u8], out: &mut [u8], size: &mut usize) -> u8
    ensures { Builds out.old (good_password password.now) (on_wire (frame_of P1 (password_data password.now))) (record { number = result; length = size.new }) out.new }
{
    answer(commands::password(out, password), size)
}

// R1 for the clock.
#[unsafe(no_mangle)]
pub extern "C" fn dirgemist_head_read_clock(out: &mut [u8], size: &mut usize) -> u8
    ensures { Builds out.old (true) (on_wire (frame_of R1 ask_clock)) (record { number = result; length = size.new }) out.new }
{
    answer(commands::read_clock(out), size)
}

// R1 for the serial.
#[unsafe(no_mangle)]
pub extern "C" fn dirgemist_head_read_serial(out: &mut [u8], size: &mut usize) -> u8
    ensures { Builds out.old (true) (on_wire (frame_of R1 ask_serial)) (record { number = result; length = size.new }) out.new }
{
    answer(commands::read_serial(out), size)
}

// R1 for the account.
#[unsafe(no_mangle)]
pub extern "C" fn dirgemist_head_read_account(out: &mut [u8], size: &mut usize) -> u8
    ensures { Builds out.old (true) (on_wire (frame_of R1 ask_account)) (record { number = result; length = size.new }) out.new }
{
    answer(commands::read_account(out), size)
}

// R1 for the total.
#[unsafe(no_mangle)]
pub extern "C" fn dirgemist_head_read_total(out: &mut [u8], size: &mut usize) -> u8
    ensures { Builds out.old (true) (on_wire (frame_of R1 (ask_energy 0))) (record { number = result; length = size.new }) out.new }
{
    answer(commands::read_total(out), size)
}

// R1 for a zone's energy.
#[unsafe(no_mangle)]
pub extern "C" fn dirgemist_head_read_zone(zone: u8, out: &mut [u8], size: &mut usize) -> u8
    ensures { Builds out.old (good_zone zone) (on_wire (frame_of R1 (ask_energy zone))) (record { number = result; length = size.new }) out.new }
{
    answer(commands::read_zone(out, ZoneNo(zone)), size)
}

// R1 for the total of what went out.
#[unsafe(no_mangle)]
pub extern "C" fn dirgemist_head_read_total_out(out: &mut [u8], size: &mut usize) -> u8
    ensures { Builds out.old (true) (on_wire (frame_of R1 (ask_export 0))) (record { number = result; length = size.new }) out.new }
{
    answer(commands::read_total_out(out), size)
}

// R1 for what went out in a zone.
#[unsafe(no_mangle)]
pub extern "C" fn dirgemist_head_read_zone_out(zone: u8, out: &mut [u8], size: &mut usize) -> u8
    ensures { Builds out.old (good_zone zone) (on_wire (frame_of R1 (ask_export zone))) (record { number = result; length = size.new }) out.new }
{
    answer(commands::read_zone_out(out, ZoneNo(zone)), size)
}

// R1 for a table of an edition's meter.
#[unsafe(no_mangle)]
pub extern "C" fn dirgemist_head_read_table(
    edition: u8,
    table: u8,
    out: &mut [u8],
    size: &mut usize,
) -> u8
    ensures { BuildsFor edition out.old (good_table (tables_of edition) table) (on_wire (frame_of R1 (ask_table table))) (record { number = result; length = size.new }) out.new }
{
    answer(commands::read_table(out, edition, TableNo(table)), size)
}

// W1 for the clock.
#[unsafe(no_mangle)]
pub extern "C" fn dirgemist_head_write_clock(
    year: u16,
    month: u8,
    day: u8,
    hour: u8,
    minute: u8,
    second: u8,
    out: &mut [u8],
    size: &mut usize,
) -> u8
    ensures { Builds out.old (real_clock (record { date = date_of year month day; time = time_of hour minute second })) (on_wire (frame_of W1 (set_clock (record { date = date_of year month day; time = time_of hour minute second })))) (record { number = result; length = size.new }) out.new }
{
    let c = Clock {
        date: Date { year, month, day },
        time: Time {
            hour,
            minute,
            second,
        },
    };
    answer(commands::write_clock(out, c), size)
}

// W1 for the account.
#[unsafe(no_mangle)]
pub extern "C" fn dirgemist_head_write_account(
    account: &[u8],
    out: &mut [u8],
    size: &mut usize,
) -> u8
    ensures { Builds out.old (good_account account.now) (on_wire (frame_of W1 (set_account account.now))) (record { number = result; length = size.new }) out.new }
{
    answer(commands::write_account(out, account), size)
}

// W1 for a table of an edition's meter.
#[unsafe(no_mangle)]
pub extern "C" fn dirgemist_head_write_table(
    edition: u8,
    table: u8,
    row: &[u8],
    out: &mut [u8],
    size: &mut usize,
) -> u8
    ensures { BuildsFor edition out.old (good_table (tables_of edition) table && good_row row.now) (on_wire (frame_of W1 (set_table table row.now))) (record { number = result; length = size.new }) out.new }
{
    answer(
        commands::write_table(out, edition, TableNo(table), row),
        size,
    )
}

// B0.
#[unsafe(no_mangle)]
pub extern "C" fn dirgemist_head_sign_off(out: &mut [u8], size: &mut usize) -> u8
    ensures { Builds out.old (true) (on_wire (bare_frame B0)) (record { number = result; length = size.new }) out.new }
{
    answer(commands::sign_off(out), size)
}
