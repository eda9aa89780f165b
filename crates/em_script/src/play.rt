//! Playing a line: reading it, doing what it says and writing its answer.
ghost use Rattle.std.specs.Prelude.{◌<◌, length};
ghost use Rattle.std.specs.Option.{option_map};
ghost use Rattle.em_text.specs.Words.{words_of};
ghost use Rattle.em_line.specs.Arguments.{arguments_of};
ghost use Rattle.em_line.specs.Command.{plain};
ghost use Rattle.em_line.specs.Grammar.{parsed_line, named_form, command_form, link_form, look_form, turns_form};
ghost use Rattle.em_line.specs.ParsedLine.{command_line, request_line};
ghost use Rattle.em_line.specs.Request.{request_form};
ghost use Rattle.em_script.specs.Reply.{Performs, Plays};

use crate::outcome::Outcome;
use crate::player::Player;
use crate::printed::write_bad_line;
use crate::reply::{ask, obey, set_plan};
use crate::session::Session;
use em_journal::Acts;
use em_line::{
    Command, Look, MOST_PEEK, alone, arrive_form, back_form, is_comment, link_form, peek_form,
    poke_form, read_form, request_form, turns_form, write_form,
};
use em_step::Event;
use em_text::{Words, WriteFailed, is_name};
use std::alloc::AllocError;
use std::io::Write;

/// A line of a script that says something: its number, its first word, and the words behind that.
#[derive(Clone, Copy)]
struct NamedLine<'a> {
    number: u32,
    name: &'a [u8],
    words: Words<'a>,
}

impl Player {
    /// Plays the line of a number. Where memory is refused for the octets that it brings, nothing is
    /// done and nothing written.
    #[inline(always)]
    #[tactic(auto, unfolding(em_line::specs::Grammar::parsed_line))]
    pub(crate) fn play_line<W: Write, M: Acts>(
        &mut self,
        writer: &mut W,
        session: &mut Session<M>,
        number: u32,
        line: &[u8],
    ) -> Result<Result<Outcome, WriteFailed>, AllocError>
        requires { length line.now < 0xFFFF_FFFF }
        ensures { Plays number (parsed_line line.now)
            session.old session.new (W.contents writer.old) (W.contents writer.new) result }
    {
        let mut words = Words(line);
        let Some(name) = words.next_short() else {
            return Ok(Ok(Outcome::Silent));
        };
        if is_comment(name) {
            return Ok(Ok(Outcome::Silent));
        }
        let line = NamedLine {
            number,
            name,
            words,
        };
        self.play_named(writer, session, line)
    }

    /// Plays a line of a name.
    #[inline(always)]
    fn play_named<W: Write, M: Acts>(
        &mut self,
        writer: &mut W,
        session: &mut Session<M>,
        line: NamedLine<'_>,
    ) -> Result<Result<Outcome, WriteFailed>, AllocError>
        requires { length (words_of line.words.0.now) < 0x1_0000_0000 }
        ensures { Plays line.entry.number (named_form line.entry.name.now (words_of line.entry.words.0.now))
            session.old session.new (W.contents writer.old) (W.contents writer.new) result }
    {
        if is_name(line.name, b"turns") {
            return Ok(self.play_turns(writer, session, line.number, line.words));
        }
        self.play_event(writer, session, line)
    }

    /// Plays a line that says an event, or another command or request.
    #[inline(always)]
    fn play_event<W: Write, M: Acts>(
        &mut self,
        writer: &mut W,
        session: &mut Session<M>,
        line: NamedLine<'_>,
    ) -> Result<Result<Outcome, WriteFailed>, AllocError>
        ensures { Plays line.entry.number (command_form line.entry.name.now
            (arguments_of (words_of line.entry.words.0.now)))
            session.old session.new (W.contents writer.old) (W.contents writer.new) result }
    {
        if is_name(line.name, b"r") {
            return Ok(play_command(
                writer,
                session,
                line.number,
                read_form(line.words),
                &mut self.peek_buffer,
            ));
        }
        if is_name(line.name, b"w") {
            return Ok(play_command(
                writer,
                session,
                line.number,
                write_form(line.words),
                &mut self.peek_buffer,
            ));
        }
        if is_name(line.name, b"poke") {
            let command = poke_form(line.words, &mut self.data_buffer)?;
            return Ok(play_command(writer, session, line.number, command, &mut self.peek_buffer));
        }
        if is_name(line.name, b"arrive") {
            let command = arrive_form(line.words, &mut self.data_buffer)?;
            return Ok(play_command(writer, session, line.number, command, &mut self.peek_buffer));
        }
        if is_name(line.name, b"rx") {
            let command = alone(Command::Event(Event::RxStep), line.words);
            return Ok(play_command(writer, session, line.number, command, &mut self.peek_buffer));
        }
        if is_name(line.name, b"tx") {
            let command = alone(Command::Event(Event::TxStep), line.words);
            return Ok(play_command(writer, session, line.number, command, &mut self.peek_buffer));
        }
        if is_name(line.name, b"link") {
            return Ok(self.play_link(writer, session, line.number, line.words));
        }
        self.play_look(writer, session, line)
    }

    /// Plays a line that says a look or steps back, or asks something of a driver.
    #[inline(always)]
    fn play_look<W: Write, M: Acts>(
        &mut self,
        writer: &mut W,
        session: &mut Session<M>,
        line: NamedLine<'_>,
    ) -> Result<Result<Outcome, WriteFailed>, AllocError>
        ensures { Plays line.entry.number (look_form line.entry.name.now
            (arguments_of (words_of line.entry.words.0.now)))
            session.old session.new (W.contents writer.old) (W.contents writer.new) result }
    {
        if is_name(line.name, b"peek") {
            return Ok(play_command(
                writer,
                session,
                line.number,
                peek_form(line.words),
                &mut self.peek_buffer,
            ));
        }
        if let Some(look) = Look::of(line.name) {
            let command = alone(Command::Look(look), line.words);
            return Ok(play_command(writer, session, line.number, command, &mut self.peek_buffer));
        }
        if is_name(line.name, b"back") {
            return Ok(play_command(
                writer,
                session,
                line.number,
                back_form(line.words),
                &mut self.peek_buffer,
            ));
        }
        self.play_request(writer, session, line.number, line.name, line.words)
    }

    /// Plays a line that sets the link, as few lines do.
    #[inline(never)]
    fn play_link<W: Write, M: Acts>(
        &mut self,
        writer: &mut W,
        session: &mut Session<M>,
        number: u32,
        words: Words<'_>,
    ) -> Result<Outcome, WriteFailed>
        ensures { Performs number (link_form (arguments_of (words_of words.entry.0.now)))
            session.old session.new (W.contents writer.old) (W.contents writer.new) result }
    {
        play_command(
            writer,
            session,
            number,
            link_form(words),
            &mut self.peek_buffer,
        )
    }

    /// Sets the plan that the words of a line say, if they say one.
    #[inline(never)]
    fn play_turns<W: Write, M: Acts>(
        &mut self,
        writer: &mut W,
        session: &mut Session<M>,
        number: u32,
        words: Words<'_>,
    ) -> Result<Outcome, WriteFailed>
        requires { length (words_of words.0.now) < 0x1_0000_0000 }
        ensures { Performs number (turns_form (words_of words.entry.0.now))
            session.old session.new (W.contents writer.old) (W.contents writer.new) result }
    {
        match turns_form(words) {
            Some(plan) => set_plan(self.alloc, writer, session, plan),
            None => write_bad_line(writer, number),
        }
    }

    /// Does what is asked of a driver by a line, if it asks something.
    #[inline(never)]
    fn play_request<W: Write, M: Acts>(
        &mut self,
        writer: &mut W,
        session: &mut Session<M>,
        number: u32,
        name: &[u8],
        words: Words<'_>,
    ) -> Result<Result<Outcome, WriteFailed>, AllocError>
        ensures { Plays number (request_line (request_form name.entry.now (arguments_of (words_of words.entry.0.now))))
            session.old session.new (W.contents writer.old) (W.contents writer.new) result }
    {
        let packets = &mut session.packets;
        match request_form(self.alloc, name, words, &mut self.data_buffer, packets)? {
            Some(request) => Ok(ask(self.alloc, writer, session, request)),
            None => Ok(write_bad_line(writer, number)),
        }
    }
}

/// Does what a line says, if it says a command.
#[inline(always)]
fn play_command<W: Write, M: Acts>(
    writer: &mut W,
    session: &mut Session<M>,
    number: u32,
    command: Option<Command<'_>>,
    peek_buffer: &mut [u8; MOST_PEEK],
) -> Result<Outcome, WriteFailed>
    ensures { Performs number (command_line (option_map plain command.entry))
        session.old session.new (W.contents writer.old) (W.contents writer.new) result }
{
    match command {
        Some(command) => obey(writer, session, command, peek_buffer),
        None => write_bad_line(writer, number),
    }
}
