//! What the lines were answered, and other texts beside lines.
ghost use Rattle.std.specs.Prelude.{◌≡◌, ◌<◌, ◌≤◌, IfOk, OnOk, OnErr, [], length, take, slice_get, slice_set};
ghost use Rattle.std.specs.Option.{option_map};
ghost use Rattle.em_tape.specs.Texts.{texts};
ghost use Rattle.em_tape.specs.Tape.{line_at};
ghost use Rattle.em_debugger.specs.Told.{closed, kept_of, moved, told_of, Notes, Puts, Stay};

use em_tape::Text;
use em_text::next_line;
use std::alloc::{AllocError, Global};

/// The most octets that are kept of an answer.
const MOST_KEPT: usize = 64;

/// By line, what is kept of its answer, or another text.
#[derive(Drop)]
pub(crate) struct Told {
    alloc: Global,
    answers: Vec<Text>,
}

impl Told {
    /// Before any line.
    pub(crate) fn new(alloc: Global) -> Told
        ensures { texts result.answers.items ≡ [] }
    {
        Told {
            alloc,
            answers: Vec::new(alloc),
        }
    }

    /// Notes the answer to the line of this number, from 1.
    pub(crate) fn note(&mut self, number: usize, text: &[u8]) -> Result<(), AllocError>
        requires { 0 < number }
        ensures ok { OnOk result (Notes number text.now (texts self.old.answers.items) (texts self.new.answers.items)) }
        ensures err { OnErr result (Stay (texts self.old.answers.items) (texts self.new.answers.items)) }
    {
        self.put(number, kept_of(text))
    }

    /// Puts a text beside the line of this number, from 1.
    pub(crate) fn put(&mut self, number: usize, text: &[u8]) -> Result<(), AllocError>
        requires { 0 < number }
        ensures ok { OnOk result (Puts number text.now (texts self.old.answers.items) (texts self.new.answers.items)) }
        ensures err { OnErr result (Stay (texts self.old.answers.items) (texts self.new.answers.items)) }
    {
        let text = self.make_ready(number, text)?;
        self.set(number - 1, text);
        Ok(())
    }

    /// Makes a place beside the line of this number, from 1, and gives the text that is to be [`set`](Told::set) there.
    pub(crate) fn make_ready(&mut self, number: usize, text: &[u8]) -> Result<Text, AllocError>
        requires { 0 < number }
        ensures stay { Stay (texts self.old.answers.items) (texts self.new.answers.items) }
        ensures place { OnOk result (number ≤ length self.new.answers.items) }
        ensures text { IfOk result (λ kept. kept.items ≡ text.now) }
    {
        while self.answers.len() < number {
            self.answers.push(Text::new(self.alloc))?;
        }
        Text::from_slice(self.alloc, text)
    }

    /// Puts a text into the place behind the first so many.
    pub(crate) fn set(&mut self, before: usize, text: Text)
        requires { before < length self.old.answers.items }
        ensures { self.new.answers.items ≡ slice_set self.old.answers.items before text }
    {
        self.answers[before] = text;
    }

    /// What is kept of the answer to the line of this number; where nothing is, no octet.
    pub(crate) fn of(&self, number: usize) -> &[u8]
        ensures { result.now ≡ told_of number (texts self.now.answers.items) }
    {
        self.find(number).unwrap_or_default()
    }

    fn find(&self, number: usize) -> Option<&[u8]>
        ensures { option_map (λ text. text.now) result ≡ line_at number (texts self.now.answers.items) }
    {
        if number == 0 {
            return None;
        }
        answer_at(self.answers.as_slice(), number - 1)
    }

    /// Makes way for a line behind so many: what stands beside the lines behind those then stands beside the next ones.
    pub(crate) fn make_way(&mut self, lines: usize) -> Result<(), AllocError>
        ensures ok { OnOk result (texts self.new.answers.items ≡ moved lines (texts self.old.answers.items)) }
        ensures err { OnErr result (texts self.new.answers.items ≡ texts self.old.answers.items) }
    {
        if lines < self.answers.len() {
            self.answers.insert(lines, Text::new(self.alloc))?;
        }
        Ok(())
    }

    /// Takes the way back that was made for a line behind so many.
    pub(crate) fn close_up(&mut self, lines: usize)
        ensures { texts self.new.answers.items ≡ closed lines (texts self.old.answers.items) }
    {
        if lines < self.answers.len() {
            let _none = self.answers.remove(lines);
        }
    }

    /// Forgets the answers to the lines behind so many.
    pub(crate) fn keep(&mut self, lines: usize)
        ensures { texts self.new.answers.items ≡ take lines (texts self.old.answers.items) }
    {
        self.answers.truncate(lines);
    }
}

/// The answer behind the first so many.
fn answer_at(answers: &[Text], before: usize) -> Option<&[u8]>
    ensures { option_map (λ text. text.now) result ≡ slice_get (texts answers.now) before }
{
    match answers.get(before) {
        Some(answer) => Some(answer.as_slice()),
        None => None,
    }
}

/// What is kept of an answer: its first line, and not more than 64 octets of that.
fn kept_of(text: &[u8]) -> &[u8]
    ensures { result.now ≡ kept_of text.now }
{
    if text.is_empty() {
        return text;
    }
    let (line, _) = next_line(text);
    &line[..line.len().min(MOST_KEPT)]
}
