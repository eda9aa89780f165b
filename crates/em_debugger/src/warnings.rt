//! What the rules that tell what drivers get wrong said of the lines.
ghost use Rattle.std.specs.Prelude.{◌≡◌, ◌<◌, ◌≤◌, IfErr, IsSome, OnOk, [], length, slice_set, take};
ghost use Rattle.em_debugger.specs.Warnings.{SaysSo, StaySaid, opened, said_behind, told_by};

use em_script::BenchFault;
use em_warnings::{Found, RULES, Warning, count_found};
use std::alloc::Global;

/// What they said of a line, where one of them said something. Of most lines none does.
type Said = Option<Box<[Option<Warning>; RULES]>>;

/// By line, what they said of it as it was performed last.
#[derive(Drop)]
pub(crate) struct Warnings {
    alloc: Global,
    lines: Vec<Said>,
    // room for what is said of the next line
    room: Said,
}

impl Warnings {
    /// Before any line.
    pub(crate) fn new(alloc: Global) -> Warnings
        ensures { result.lines.items ≡ [] }
    {
        Warnings {
            alloc,
            lines: Vec::new(alloc),
            room: None,
        }
    }

    /// Makes a place beside the line of this number, from 1, and room for what they [say](Warnings::say) of it.
    pub(crate) fn prepare(&mut self, number: usize) -> Result<(), BenchFault>
        ensures stay { StaySaid self.old.lines.items self.new.lines.items }
        ensures place { OnOk result (number ≤ length self.new.lines.items) }
        ensures room { OnOk result (IsSome self.new.room) }
        ensures only { IfErr result (λ fault. fault ≡ BenchFault.Memory) }
    {
        self.make_room()?;
        self.make_place(number)
    }

    /// Makes the room, where there is none.
    fn make_room(&mut self) -> Result<(), BenchFault>
        ensures lines { self.new.lines ≡ self.old.lines }
        ensures room { OnOk result (IsSome self.new.room) }
        ensures only { IfErr result (λ fault. fault ≡ BenchFault.Memory) }
    {
        match &self.room {
            Some(_) => Ok(()),
            None => match Box::new(self.alloc, [None; RULES]) {
                Ok(room) => {
                    self.room = Some(room);
                    Ok(())
                }
                Err(_) => Err(BenchFault::Memory),
            },
        }
    }

    fn make_place(&mut self, number: usize) -> Result<(), BenchFault>
        ensures stay { StaySaid self.old.lines.items self.new.lines.items }
        ensures place { OnOk result (number ≤ length self.new.lines.items) }
        ensures room { self.new.room ≡ self.old.room }
        ensures only { IfErr result (λ fault. fault ≡ BenchFault.Memory) }
    {
        while self.lines.len() < number {
            let Ok(()) = self.lines.push(None) else {
                return Err(BenchFault::Memory);
            };
        }
        Ok(())
    }

    /// Keeps what they said of the line behind the first so many.
    #[tactic(auto, using(crate::proofs::WarningsLaws::says_put))]
    pub(crate) fn say(&mut self, before: usize, found: &Found)
        requires place { before < length self.old.lines.items }
        requires room { IsSome self.old.room }
        ensures { SaysSo before found.now self.old.lines.items self.new.lines.items }
    {
        let said = self.said(found);
        self.put(before, said);
    }

    fn put(&mut self, before: usize, said: Said)
        requires { before < length self.old.lines.items }
        ensures { self.new.lines.items ≡ slice_set self.old.lines.items before said }
    {
        self.lines[before] = said;
    }

    /// What is kept of what they said: it lies in the room, if they said something.
    fn said(&mut self, found: &Found) -> Said
        requires { IsSome self.old.room }
        ensures said { opened result ≡ told_by found.now }
        ensures lines { self.new.lines ≡ self.old.lines }
    {
        match found {
            Some(warnings) if count_found(found) > 0 => filled(self.room.take(), warnings),
            _ => None,
        }
    }

    /// What they said of the line behind the first so many; where nothing is kept of it, nothing.
    pub(crate) fn behind(&self, before: usize) -> &[Option<Warning>]
        ensures { result.now ≡ said_behind before self.now.lines.items }
    {
        match self.lines.get(before) {
            Some(Some(warnings)) => warnings.as_slice(),
            _ => &[],
        }
    }

    /// Forgets what they said of the lines behind so many.
    pub(crate) fn keep(&mut self, lines: usize)
        ensures { self.new.lines.items ≡ take lines self.old.lines.items }
    {
        self.lines.truncate(lines);
    }
}

/// Room in which this is kept.
fn filled(room: Said, warnings: &[Option<Warning>; RULES]) -> Said
    requires { IsSome room }
    ensures { opened result ≡ warnings.now }
{
    match room {
        Some(mut room) => {
            *room = *warnings;
            Some(room)
        }
        None => unreachable!(),
    }
}
