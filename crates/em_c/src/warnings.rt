//! What the newest event seems to get wrong.
ghost use Rattle.std.specs.Prelude.{◌≡◌, ◌+◌, ◌<◌, ℕ, List, [], ◌∷◌, Result, OnOk};
ghost use Rattle.em_warnings.specs.Warnings.{there};
ghost use Rattle.em_c.specs.Refused.{Shows};
ghost use Rattle.em_c.specs.Line.{IsTold};
ghost use Rattle.em_c.specs.Warning as the;

use crate::handle::EmMachine;
use crate::refused::{DONE, Refused};
use crate::tagged::Tagged;
use crate::warning::{BLANK, EmWarning};
use em_inspect::Extent;
use em_journal::Machine;
use em_regs::{Profile, Reg};
use em_trail::{Kind, Note};
use em_warnings::{RULES, Warning, alone, read_again, warnings_of, written_while_owned};

/// What a driver seems to get wrong by the newest event, and how many such rules there are: rules are asked of a write
/// of a register, of one of guest memory, and of a read of ICR that gave 0. Behind them stand warnings of the number 0.
#[unsafe(no_mangle)]
pub extern "C" fn em_warnings(
    machine: &mut EmMachine,
    warnings: &mut [EmWarning; RULES],
    count: &mut usize,
) -> u32
    ensures warnings { (outcome : Result (List EmWarning × ℕ) Refused)
        × the.HeldWarnings machine.old.sealed.held outcome
        × Shows (the.list_in outcome) warnings.old result warnings.new
        × Shows (the.count_in outcome) count.old result count.new }
    ensures same { machine.new.sealed.held ≡ machine.old.sealed.held }
{
    match warnings_held(machine) {
        Ok(told) => {
            let list = told.0;
            *warnings = list;
            *count = told.1;
            DONE
        }
        Err(refused) => refused.number(),
    }
}

/// The warnings, of the machine that is held.
fn warnings_held(machine: &mut EmMachine) -> Result<([EmWarning; RULES], usize), Refused>
    ensures warnings { the.HeldWarnings machine.old.sealed.held result }
    ensures same { machine.new.sealed.held ≡ machine.old.sealed.held }
{
    let held = machine.held()?;
    let found = found_in(held);
    list_of(&found)
}

/// What each rule says of the newest event.
fn found_in(machine: &Tagged) -> [Option<Warning>; RULES]
    ensures { result ≡ the.found_in machine.now }
{
    match machine.traced.note(0) {
        Some(note) => found_as(machine.traced.machine(), note),
        None => [None; RULES],
    }
}

/// What each rule says of an event, by its note. The machine is as it left it.
fn found_as(machine: &Machine, note: Note) -> [Option<Warning>; RULES]
    ensures { result ≡ the.found_as machine.now note.kind note.at note.value }
{
    match note.kind {
        Kind::Write => match reg_of(note.at) {
            Some(reg) => warnings_of(machine, reg, note.value),
            None => [None; RULES],
        },
        Kind::Read if note.value == 0 => match reg_of(note.at) {
            Some(Reg::Icr) => alone(read_again(machine)),
            _ => [None; RULES],
        },
        Kind::Poke => {
            let write = Extent {
                at: note.at,
                size: u64::from(note.value),
            };
            alone(written_while_owned(machine, write))
        }
        _ => [None; RULES],
    }
}

/// The register at an offset, if one lies there.
fn reg_of(at: u64) -> Option<Reg>
    ensures { result ≡ the.reg_of at }
{
    match u32::try_from(at) {
        Ok(offset) => Reg::of_offset_in(Profile::Adapter, offset),
        Err(_) => None,
    }
}

/// The warnings that there are, one behind another, and how many.
fn list_of(found: &[Option<Warning>; RULES]) -> Result<([EmWarning; RULES], usize), Refused>
    ensures { IsTold result (the.listed found.now) }
{
    let mut list = [BLANK; RULES];
    let count = lay(found, &mut list)?;
    Ok((list, count))
}

/// Puts the warnings that there are at the front of a list, and gives how many.
fn lay(found: &[Option<Warning>; RULES], list: &mut [EmWarning; RULES]) -> Result<usize, Refused>
    ensures list { OnOk result (list.new ≡ the.laid found.now 0 list.old) }
    ensures count { IsTold result (there found.now) }
{
    let mut at = 0usize;
    for warning in found {
        at = put(*warning, list, at)?;
    }
    Ok(at)
}

/// Puts a warning, if there is one, at a place of a list, and gives the next place.
fn put(warning: Option<Warning>, list: &mut [EmWarning; RULES], at: usize) -> Result<usize, Refused>
    requires { at < RULES }
    ensures list { OnOk result (list.new ≡ the.laid (warning ∷ []) at list.old) }
    ensures next { IsTold result (at + there (warning ∷ [])) }
{
    match warning {
        Some(warning) => {
            list[at] = EmWarning::of(warning)?;
            Ok(at + 1)
        }
        None => Ok(at),
    }
}
