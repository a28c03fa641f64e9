// A program's streams: all of its input, its output in one go, and on standard error a word for the wrapper that gives the exit status.
#![tactic(auto)]

ghost use Rattle.std.specs.Prelude.{◌≡◌, ◌+◌, ◌-◌, ◌≤◌, length, take, IfSome, IfOk, IfErr};
ghost use Rattle.text.specs.Writing.{stored};

use std::env::FillError;
use std::io;
use std::io::Read;
use std::rt::Env;

// What one read asks for: much, so that a long input takes few calls.
const PIECE: usize = 65_536;

// Nothing says that an input ends, and every loop must: no run reads so many pieces.
const PIECES: u64 = 18_446_744_073_709_551_615;

// An input that was not read to its end, and how many of its bytes are kept.
#[derive(Clone, Copy, Debug, PartialEq, Eq)]
pub struct CutOff {
    pub kept: usize,
}

// Puts as much of a piece into a buffer as there is room for, from a place on, and gives the place after it.
fn keep(buf: &mut [u8], at: usize, piece: &[u8]) -> usize
    requires { at ≤ length buf.old }
    ensures next { result ≡ at + length (take (length buf.old - at) piece.now) }
    ensures within { result ≤ length buf.old }
    ensures held { buf.new ≡ stored buf.old at (take (length buf.old - at) piece.now) }
{
    let room = buf.len() - at;
    text::put(buf, at, text::first(piece, room))
}

// Reads standard input to its end, keeps as many of its first bytes as the buffer holds, and gives how many: whoever writes a longer input is not cut off.
pub fn read_all(rt: &impl io::Input, buf: &mut [u8]) -> Result<usize, CutOff>
    ensures ended { IfOk result (λ n. (n ≤ length buf.new) × (n ≡ length (take n buf.new))) }
    ensures cut_off { IfErr result (λ e. (e.kept ≤ length buf.new) × (e.kept ≡ length (take e.kept buf.new))) }
{
    let mut reader = rt.reader();
    let mut kept = 0;
    for _ in 0..PIECES {
        let mut piece = [0u8; PIECE];
        match reader.read(&mut piece) {
            Ok(0) => return Ok(kept),
            Ok(n) => kept = keep(buf, kept, &piece[..n]),
            Err(_) => break,
        }
    }
    Err(CutOff { kept })
}

// The length of a word that a program is started with, which then lies at the start of the buffer:
// 0 where it is longer than the buffer, none where there is no such word. Word 0 is the program's name.
pub fn word_told(rt: &impl Env, at: usize, word: &mut [u8]) -> Option<usize>
    ensures { IfSome result (λ n. n ≤ length word.new) }
{
    match rt.arg(at, word) {
        Ok(n) => Some(n),
        Err(FillError::TooLong) => Some(0),
        Err(FillError::NotPresent) => None,
    }
}

// The edition that a program is started with, as its one word: 1 without a word, 0 where the words name none.
// Stays: a number, and 0 for none, as C gives it to `exporting::show`, `cardexporting::show` and `reporting::report`, which refuse it with 16.
pub fn edition_told(rt: &impl Env) -> u8 {
    let mut word = [0u8; 2];
    let Some(n) = word_told(rt, 1, &mut word) else {
        return 1;
    };
    let alone = word_told(rt, 2, &mut [0u8; 2]).is_none();
    match &word[..n] {
        b"1" if alone => 1,
        b"2" if alone => 2,
        _ => 0,
    }
}

// Says that the input was not read. Where that can't be said either, nothing is left to do.
pub fn complain(rt: &impl Eprint) {
    let _ = rt.eprintln("the input can't be read");
}

// Writes all that a program has to say.
pub fn write_once(rt: &(impl Print + Eprint), s: &[u8], done: bool) {
    if rt.write_all(s).is_err() {
        let _ = rt.eprintln("the output can't be written");
        return;
    }
    if !done {
        let _ = rt.eprintln("refused");
    }
}
