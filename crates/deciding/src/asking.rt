// R1: what is asked for.
ghost use Rattle.std.specs.Prelude.{◌≡◌};
ghost use Rattle.deciding.specs.Verdicts.{verdict_of};
ghost use Rattle.deciding.specs.Asking.{table_asked, energy_named, energy_meant, energy_asked, asked};

use crate::{Command, Refusal};
use replies::Ask;
use values::{Energy, ZoneNo};

// Z(xx)
fn table(d: &[u8], tables: u8) -> Result<Command, Refusal>
    ensures { verdict_of result ≡ table_asked tables d.now }
{
    if !text::has_form(b"Z(##)", d) {
        return Err(Refusal::BadData);
    }
    match values::reading::read_table(text::first(text::rest(d, 2), 2), tables) {
        Some(named) => Ok(Command::Read(Ask::Table(named))),
        None => Err(Refusal::BadData),
    }
}

// The energy that a letter with a number names: 0 the total, 1 to 4 a zone's.
fn energy_named(d: &[u8], letter: u8) -> Option<Energy>
    ensures { result ≡ energy_meant (energy_named letter d.now) }
{
    if text::same(d, &[letter, b'0', b'(', b')']) {
        return Some(Energy::Total);
    }
    if text::same(d, &[letter, b'1', b'(', b')']) {
        return Some(Energy::Zone(ZoneNo(1)));
    }
    if text::same(d, &[letter, b'2', b'(', b')']) {
        return Some(Energy::Zone(ZoneNo(2)));
    }
    if text::same(d, &[letter, b'3', b'(', b')']) {
        return Some(Energy::Zone(ZoneNo(3)));
    }
    if text::same(d, &[letter, b'4', b'(', b')']) {
        return Some(Energy::Zone(ZoneNo(4)));
    }
    None
}

// E0() to E4(), and of an EQM meter G0() to G4().
fn energy(d: &[u8], tables: u8, family: u8) -> Result<Command, Refusal>
    ensures { verdict_of result ≡ energy_asked tables family d.now }
{
    if let Some(came) = energy_named(d, b'E') {
        return Ok(Command::Read(Ask::Energy(came)));
    }
    if values::family::is_eqm(family) {
        if let Some(went) = energy_named(d, b'G') {
            return Ok(Command::Read(Ask::Export(went)));
        }
    }
    table(d, tables)
}

pub fn asks(d: &[u8], tables: u8, family: u8) -> Result<Command, Refusal>
    ensures { verdict_of result ≡ asked tables family d.now }
{
    if text::same(d, b"T()") {
        return Ok(Command::Read(Ask::Clock));
    }
    if text::same(d, b"L()") {
        return Ok(Command::Read(Ask::Serial));
    }
    if text::same(d, b"K()") {
        return Ok(Command::Read(Ask::Account));
    }
    energy(d, tables, family)
}
