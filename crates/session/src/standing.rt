// Which session values there are.
ghost use Rattle.std.specs.Prelude.{◌≡◌};
ghost use Rattle.session.specs.Standing.{told_good, kept_good, work_good, place_good, fact_good, session_told, session_good};

use crate::Session;

// 0, or 1 with something that has to be good.
pub fn told_good(flag: u8, good: bool) -> bool
    ensures { result ≡ told_good flag good }
{
    (flag == 0) | ((flag == 1) & good)
}

// What was not told is zeros.
fn kept_good(flag: u8, s: &[u8]) -> bool
    ensures { result ≡ kept_good flag s.now }
{
    (flag == 1) | text::all_between(s, 0, 0)
}

// A post needs a password, and has no more lines than there are tables.
fn work_good(tables: u8, work: u8, access: u8, count: u8) -> bool
    ensures { result ≡ work_good tables work access count }
{
    (work == 0) | ((work == 1) & ((access == 1) & (count <= tables)))
}

// One to 32 messages of work, and one of all messages sent last.
fn place_good(count: u8, sent: u8) -> bool
    ensures { result ≡ place_good count sent }
{
    ((1 <= count) & (count <= 32)) & ((1 <= sent) & (sent as u16 <= count as u16 + 4))
}

// Done only after the last message.
fn fact_good(count: u8, sent: u8, fact: u8) -> bool
    ensures { result ≡ fact_good count sent fact }
{
    (fact <= 4) & (!(fact == 1) | (sent as u16 == count as u16 + 4))
}

// The edition and the decimals, and the serial and the password where they were told.
fn is_told(s: Session) -> bool
    ensures { result ≡ session_told s }
{
    let named = told_good(s.named, values::is_digits(&s.serial, 10))
        & kept_good(s.named, &s.serial);
    let access = told_good(s.access, values::is_digits(&s.password, 8))
        & kept_good(s.access, &s.password);
    let meter = values::is_edition(s.edition) & values::family::is_family(s.decimals);
    meter & (named & access)
}

// Whether a session may stand so.
pub fn is_good(s: Session) -> bool
    ensures { result ≡ session_good s }
{
    let tables = values::tables_of(s.edition);
    let told = is_told(s) & work_good(tables, s.work, s.access, s.count);
    told & (place_good(s.count, s.sent) & fact_good(s.count, s.sent, s.fact))
}
