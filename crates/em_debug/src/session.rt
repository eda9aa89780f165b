//! The debugger as what answers a console.
ghost use Rattle.std.specs.Prelude.{◌≡◌, ⊤, OnOk};
ghost use Rattle.std.specs.Option.{option_map};
ghost use Rattle.em_debugger.specs.Answering.{Answers as AnswersLine};
ghost use Rattle.em_console.specs.Serving.{long_text};
ghost use Rattle.em_debugger.specs.Disk.{Did};
ghost use Rattle.em_debugger.specs.Standing.{became_of, source_here, standing};
ghost use Rattle.em_debug.specs.Session.{last_after, meant};

use crate::marks::Marks;
use em_console::{Answers, Became, Flow, LONG_LINE, Standing, Stands};
use em_debugger::{Debugger, Disk};
use em_text::Words;
use std::alloc::AllocError;

/// A debugger, where its files lie, and which typed lines were wrong, if that is to be told.
#[derive(Drop)]
pub struct Served<D: Disk + Drop> {
    pub debugger: Debugger,
    pub disk: D,
    pub marks: Option<Marks>,
    /// The line that was answered last, where an empty one repeats it: at a terminal.
    pub last: Option<Vec<u8>>,
}

impl<D: Disk + Drop> Answers for Served<D> {
    ghost answers = { λ before line text flow after.
        AnswersLine (Did D.passes before.disk after.disk) before.debugger after.debugger
        (meant (option_map (λ last. last.items) before.last) line) flow text
        × (option_map (λ last. last.items) after.last ≡ last_after (option_map (λ last. last.items) before.last) line) };

    // Where memory is refused, a part of the line may be done.
    ghost stops = { λ before line after. ⊤ };

    ghost refuses = { λ session line text. text ≡ long_text };

    fn answer(&mut self, line: &[u8], text: &mut Vec<u8>) -> Result<Flow, AllocError> {
        keep_last(&mut self.last, line)?;
        let meant = match &self.last {
            Some(last) => last.as_slice(),
            None => line,
        };
        let answered = match self.debugger.answer(text, &mut self.disk, meant) {
            Ok(flow) => Ok(flow),
            // A vector fails only where memory is refused.
            Err(_) => Err(AllocError),
        };
        if let Some(marks) = &mut self.marks {
            marks.note(line);
        }
        answered
    }

    fn refuse(&self, _line: &[u8], text: &mut Vec<u8>) -> Result<(), AllocError> {
        text.extend_from_slice(LONG_LINE)?;
        Ok(())
    }
}

impl<D: Disk + Drop> Stands for Served<D> {
    ghost stands = { λ session. standing session.debugger };

    ghost comes_from = { λ session. source_here session.debugger };

    ghost led = { λ session line before. became_of session.debugger line before };

    fn standing(&self) -> Standing {
        self.debugger.standing()
    }

    fn source(&self) -> &[u8] {
        self.debugger.source()
    }

    fn became(&self, line: &[u8], before: Standing) -> Became {
        self.debugger.became(line, before)
    }
}

/// Keeps a line as the last, if one is kept and the line has a word.
fn keep_last(last: &mut Option<Vec<u8>>, line: &[u8]) -> Result<(), AllocError>
    ensures { OnOk result (option_map (λ kept. kept.items) last.new
        ≡ last_after (option_map (λ kept. kept.items) last.old) line.now) }
{
    if let Some(kept) = last {
        if !Words(line).is_over() {
            kept.clear();
            kept.extend_from_slice(line)?;
        }
    }
    Ok(())
}
