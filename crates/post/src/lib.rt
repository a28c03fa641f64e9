// Posts: whether a text is one, and where it leaves every post.
// Whole lines are accepted at once; the place is looked for only in the line that failed. All is said over the number of tables.
#![tactic(auto)]

ghost use Rattle.std.specs.Prelude.{◌≡◌, ℕ, ◌+◌, ◌*◌, ◌<◌, ◌≤◌, true, false, length, drop, slice_index, slice_index_or, MatchOption};
ghost use Rattle.text.specs.Beginnings.{Longest};
ghost use Rattle.post.specs.Grammar.{last_line, IsPost};
ghost use Rattle.post.specs.Place.{CheckedAs, CheckedFor};
ghost use Rattle.post.specs.Refusals.{refusal_number, refusal_place, answer_number, answer_place};
ghost use Rattle.post.specs.Columns.{lowest, highest, column_fits, next_number, straying, StraysFirst, FirstStray, LinePlace, LastPlace, begins_last, is_last, TookLine, LineRises};
ghost use Rattle.post.specs.Rest.{Rest, Scanned};

// The lowest and the highest character of each column of a line, `131.0.xx(row)` CR LF.
const LOWEST: [u8; 36] = *b"131.0.00(111111111111111111111111)\r\n";

const HIGHEST: [u8; 36] = *b"131.0.99(444444444444444444444444)\r\n";

// Why a text is refused: it is no post, and leaves every post at this place; or there is no such edition.
#[derive(Clone, Copy, Debug, PartialEq, Eq)]
pub enum Refusal {
    NoPost(usize),
    NoEdition,
}

impl Refusal {
    // Document 01's number: 20 or 16.
    pub fn number(self) -> u8
        ensures { result ≡ refusal_number self }
    {
        match self {
            Refusal::NoPost(_) => 20,
            Refusal::NoEdition => 16,
        }
    }

    // The place that document 01 gives with it: 0 where no text was looked at.
    pub fn place(self) -> usize
        ensures { result ≡ refusal_place self }
    {
        match self {
            Refusal::NoPost(place) => place,
            Refusal::NoEdition => 0,
        }
    }
}

// How far whole lines reach, the number of the last, and the first column that strays below it.
#[derive(Clone, Copy)]
pub struct Reached {
    pub at: usize,
    pub above: u8,
    pub stray: usize,
}

// Whether the character in a column of the line at a place is one that the column may hold. The bounds are lent, so that a loop has
// them at hand.
// Stays: bounds as two arrays, and twice in `stray_in` and `take_line`. Tried as a struct whose ghost fields say what they are, which no
// clause then has to: a post was checked in 97 ns in place of 76, and a text with its fault in the last line in 383 in place of 165.
fn column_fits(low: &[u8; 36], high: &[u8; 36], text: &[u8], at: usize, j: usize) -> bool
    requires { (low.now ≡ lowest) × (high.now ≡ highest) × (j < 36) × (at + j < length text.now) }
    ensures { result ≡ column_fits (drop at text.now) j }
{
    let above = text[at + j].wrapping_sub(low[j]);
    above <= high[j] - low[j]
}

// A column that strays, as its number; the end where it fits.
#[tactic(auto, unfolding(crate::specs::Columns::straying))]
fn straying(fits: bool, column: u8, end: u8) -> u8
    ensures { result ≡ straying fits column end }
{
    if fits { end } else { column }
}

// The first column from a place on that strays, of those that three windows of 16 hold, and their end where none does. All are seen at
// once. The last window has bounds of its own: a copy that one window alone reads need not stand in memory.
// Stays: the bounds, as at `column_fits`.
fn stray_in(
    low: &[u8; 36],
    high: &[u8; 36],
    floor: &[u8; 36],
    ceiling: &[u8; 36],
    text: &[u8],
    at: usize,
    second: u8,
    third: u8,
) -> usize
    requires { (low.now ≡ lowest) × (high.now ≡ highest) × (floor.now ≡ lowest) × (ceiling.now ≡ highest) × (second ≤ 16) × (third ≤ second + 16) × (third ≤ 20) × (at + third + 16 ≤ length text.now) × (second ≤ third) }
    ensures { StraysFirst (drop at text.now) (third + 16) result }
{
    let end = third + 16;
    let mut column = end;
    for j in 0..16u8 {
        let i = j as usize;
        let first = straying(column_fits(low, high, text, at, i), j, end);
        let next = straying(
            column_fits(low, high, text, at, second as usize + i),
            second + j,
            end,
        );
        let last = straying(
            column_fits(floor, ceiling, text, at, third as usize + i),
            third + j,
            end,
        );
        column = column.min(first).min(next.min(last));
    }
    column as usize
}

// The first column of the 36 from a place on that strays; 36 where they are a line's, but for the value of its number.
// Stays: a whole line at a place of the text: a slice of 36 for it would be taken apart into its windows at once.
fn stray_at(text: &[u8], at: usize) -> usize
    requires { at + 36 ≤ length text.now }
    ensures { FirstStray (drop at text.now) result }
{
    let low = LOWEST;
    let high = HIGHEST;
    let floor = LOWEST;
    let ceiling = HIGHEST;
    stray_in(&low, &high, &floor, &ceiling, text, at, 16, 20)
}

// The same in a text shorter than a line that holds a window: the last ends where the text does.
fn late_stray(s: &[u8]) -> usize
    requires { (16 ≤ length s.now) × (length s.now < 36) }
    ensures { FirstStray s.now result }
{
    let low = LOWEST;
    let high = HIGHEST;
    let third = (s.len() - 16) as u8;
    stray_in(&low, &high, &low, &high, s, 0, third.min(16), third)
}

// The first column that strays in a text shorter than a line.
fn first_stray(s: &[u8]) -> usize
    requires { length s.now < 36 }
    ensures { FirstStray s.now result }
{
    if 16 <= s.len() {
        return late_stray(s);
    }
    let low = LOWEST;
    let high = HIGHEST;
    for j in 0..s.len() {
        if !column_fits(&low, &high, s, 0, j) {
            return j;
        }
    }
    s.len()
}

// The number of the line that stands at a place, below another, from its first stray column, where one does that may come next.
fn next_number(text: &[u8], at: usize, stray: usize, above: u8, tables: u8) -> Option<u8>
    requires { (at + 36 ≤ length text.now) × FirstStray (drop at text.now) stray }
    ensures { MatchOption result (next_number tables above (drop at text.now) ≡ 0) (λ n. (above < n) × (n ≡ next_number tables above (drop at text.now))) }
{
    if stray < 36 {
        return None;
    }
    let n = (text[at + 6] - b'0') * 10 + (text[at + 7] - b'0');
    if n <= above {
        return None;
    }
    if tables < n {
        return None;
    }
    Some(n)
}

// Goes over the lines that stand one below the other with rising numbers.
// Stays: `check_of` asks it of its callers, and a public function keeps its parameters.
fn scan(text: &[u8], tables: u8) -> Reached
    requires { tables < 100 }
    ensures { Scanned tables text.now result.at result.above result.stray }
{
    let lines = text.len() / 36;
    let mut above = 0;
    for l in 0..lines {
        let at = 36 * l;
        let stray = stray_at(text, at);
        let Some(n) = next_number(text, at, stray, above, tables) else {
            return Reached { at, above, stray };
        };
        above = n;
    }
    let at = 36 * lines;
    let stray = first_stray(&text[at..]);
    Reached { at, above, stray }
}

// The first column in which no line that may come next is like this text: a tens digit needs some number that may follow, a unit digit has to make one.
fn line_place(s: &[u8], stray: usize, above: u8, tables: u8) -> usize
    requires { FirstStray s.now stray }
    ensures { LinePlace tables above s.now result }
{
    if tables <= above {
        return 0;
    }
    if stray < 7 {
        return stray;
    }
    let tens = (s[6] - b'0') * 10;
    if tables < tens {
        return 6;
    }
    if tens + 9 <= above {
        return 6;
    }
    if stray < 8 {
        return stray;
    }
    let number = tens + (s[7] - b'0');
    if number <= above {
        return 7;
    }
    if tables < number {
        return 7;
    }
    stray
}

// How much of the last line a text has that begins like it.
fn last_place(s: &[u8]) -> usize
    requires { begins_last 1 s.now ≡ true }
    ensures { LastPlace s.now result }
{
    match s {
        [_, b'\r', b'\n', ..] => 3,
        [_, b'\r', ..] => 2,
        _ => 1,
    }
}

// Whether a text below some line begins like the last line.
#[tactic(auto, unfolding(crate::specs::Columns::begins_last))]
fn begins_last(s: &[u8], above: u8) -> bool
    ensures { result ≡ begins_last above s.now }
{
    above > 0 && matches!(s, [b'!', ..])
}

// Whether a text below some line is the last line.
#[tactic(auto, unfolding(crate::specs::Columns::is_last, crate::specs::Grammar::last_line))]
fn is_last(s: &[u8], above: u8) -> bool
    ensures { result ≡ is_last above s.now }
{
    above > 0 && text::same(s, b"!\r\n")
}

// The place of what stands below the lines, where it begins with no line.
fn rest_place(s: &[u8], stray: usize, above: u8, tables: u8) -> usize
    requires { (0 < tables) × (tables < 100) × (above ≤ tables) × (36 ≤ length s.now → next_number tables above s.now ≡ 0) × FirstStray s.now stray }
    ensures { Longest (Rest tables above) s.now result }
{
    if begins_last(s, above) {
        return last_place(s);
    }
    line_place(s, stray, above, tables)
}

// Takes a line into the flags, by the same three windows.
// Stays: the bounds, as at `column_fits`.
fn take_line(
    low: &[u8; 36],
    high: &[u8; 36],
    floor: &[u8; 36],
    ceiling: &[u8; 36],
    text: &[u8],
    at: usize,
    fits: &mut [bool; 16],
)
    requires { (low.now ≡ lowest) × (high.now ≡ highest) × (floor.now ≡ lowest) × (ceiling.now ≡ highest) × (at + 36 ≤ length text.now) × (length fits.old ≡ 16) }
    ensures { TookLine (drop at text.now) fits.old fits.new 16 }
{
    for j in 0..16 {
        let first = column_fits(low, high, text, at, j);
        let second = column_fits(low, high, text, at, 16 + j);
        let third = column_fits(floor, ceiling, text, at, 20 + j);
        fits[j] = fits[j] & ((first & second) & third);
    }
}

// Whether every flag is set.
fn all_set(fits: &[bool; 16]) -> bool
    ensures { result ≡ true → (i : ℕ) → i < 16 → slice_index_or fits.now i false ≡ true }
{
    let mut all = true;
    for fit in fits {
        all = all & *fit;
    }
    all
}

// The two digits of the line at a place as a number, 528 above the table's.
fn raw_number(text: &[u8], at: usize) -> u16
    requires { at + 36 ≤ length text.now }
    ensures { result ≡ slice_index text.now (at + 6) * 10 + slice_index text.now (at + 7) }
{
    u16::from(text[at + 6]) * 10 + u16::from(text[at + 7])
}

// Whether so many lines stand one below the other with rising numbers, with no way out before their end.
fn lines_rise(text: &[u8], lines: usize, tables: u8) -> bool
    requires { (36 * lines ≤ length text.now) × (tables < 100) }
    ensures { result ≡ true → (l : ℕ) → l < lines → LineRises tables text.now l }
{
    let low = LOWEST;
    let high = HIGHEST;
    let floor = LOWEST;
    let ceiling = HIGHEST;
    let top = 528 + u16::from(tables);
    let mut fits = [true; 16];
    let mut above: u16 = 528;
    let mut rise = true;
    for l in 0..lines {
        let at = 36 * l;
        take_line(&low, &high, &floor, &ceiling, text, at, &mut fits);
        let raw = raw_number(text, at);
        rise = rise & ((above < raw) & (raw <= top));
        above = raw;
    }
    all_set(&fits) & rise
}

// Whether a text is seen at once to be a post; yes is right, and no leaves it to the scan.
fn seen_whole(text: &[u8], tables: u8) -> bool
    requires { tables < 100 }
    ensures { result ≡ true → IsPost tables text.now }
{
    let lines = text.len() / 36;
    if text.len() != 36 * lines + 3 {
        return false;
    }
    if lines == 0 {
        return false;
    }
    if (tables as usize) < lines {
        return false;
    }
    let start = 36 * lines;
    if !is_last(&text[start..], 1) {
        return false;
    }
    lines_rise(text, lines, tables)
}

// The check, for so many tables.
pub fn check_of(text: &[u8], tables: u8) -> Result<(), Refusal>
    requires { (0 < tables) × (tables < 100) }
    ensures { CheckedAs tables text.now (answer_number result) (answer_place result) }
{
    if seen_whole(text, tables) {
        return Ok(());
    }
    let lines = scan(text, tables);
    let rest = &text[lines.at..];
    if is_last(rest, lines.above) {
        return Ok(());
    }
    let place = rest_place(rest, lines.stray, lines.above, tables);
    Err(Refusal::NoPost(lines.at + place))
}

// The check: whether a text is a post for an edition, and if not, where it leaves every post.
pub fn check(edition: u8, text: &[u8]) -> Result<(), Refusal>
    ensures { CheckedFor edition text.now (answer_number result) (answer_place result) }
{
    if !values::is_edition(edition) {
        return Err(Refusal::NoEdition);
    }
    check_of(text, values::tables_of(edition))
}
