//! Performing the lines of a tape, for the first time and again.
ghost use Rattle.std.specs.Prelude.{◌≡◌, ◌<◌, ◌≤◌, ◌^◌, ℕ, List, [], All, length, true, IfOk, IfErr, IfSome, OnOk, IsNone, Ok, None};
ghost use Rattle.em_line.specs.Command.{back_by};
ghost use Rattle.em_line.specs.Grammar.{parsed_line};
ghost use Rattle.em_line.specs.ParsedLine.{says};
ghost use Rattle.em_tape.specs.Texts.{texts};
ghost use Rattle.em_journal.specs.Settings.{new_machine, IsRefusedAs};
ghost use Rattle.em_journal.specs.View.{after_backs};
ghost use Rattle.em_script.specs.Session.{bare};
ghost use Rattle.em_tape.specs.Replied.{replied_of};
ghost use Rattle.em_tape.specs.Known.{IsKnown};
ghost use Rattle.em_tape.specs.Moves.{IsPlayed};
ghost use Rattle.em_tape.specs.Tape.{IsShort};

use crate::did::{Seen, did_of, is_noted};
use crate::kind::{kind_by, kind_of};
use crate::known::{Known, known_of};
use crate::text::Text;
use em_journal::{Settings, SettingsRefusal};
use em_named::Did;
use em_script::{BenchFault, Outcome, Player, Session};
use em_text::WriteFailed;
use em_trail::Traced;
use std::alloc::Global;
use std::io::{Write, sink};

/// The session over a new machine.
pub(crate) fn opening(alloc: Global, settings: Settings) -> Result<Session<Traced>, SettingsRefusal>
    ensures ok { IfOk result (λ session. session ≡ bare (new_machine settings)) }
    ensures err { IfErr result (IsRefusedAs settings) }
{
    match settings.machine(alloc) {
        Ok(machine) => match Traced::new(alloc, machine) {
            Ok(traced) => Ok(Session::new(alloc, traced)),
            Err(_) => Err(SettingsRefusal::Memory),
        },
        Err(refusal) => Err(refusal),
    }
}

/// Puts a session in the place of another. This has a function of its own, since the prover checks here that the
/// other may be dropped, which takes it long.
pub(crate) fn put(place: &mut Session<Traced>, session: Session<Traced>)
    ensures { place.new ≡ session }
{
    *place = session;
}

/// How a line came out, what it did with events, and what is known of it.
#[derive(Clone, Copy)]
pub(crate) struct Played {
    pub(crate) replied: Result<Outcome, WriteFailed>,
    pub(crate) did: Did,
    pub(crate) known: Known,
}

/// Plays a line. None where memory is refused for the octets of the line: then nothing is done and nothing written.
pub(crate) fn play<W: Write>(
    player: &mut Player,
    writer: &mut W,
    session: &mut Session<Traced>,
    number: u32,
    line: &[u8],
) -> Option<Played>
    requires { IsShort line.now }
    ensures done { IfSome result
        (IsPlayed number line.now session.old session.new (W.contents writer.old) (W.contents writer.new)) }
    ensures same { IsNone result → session.new ≡ session.old }
    ensures unwritten { IsNone result → W.contents writer.new ≡ W.contents writer.old }
    ensures room { length session.new.machine.past < 2 ^ 64 }
{
    let before = session.machine().can_go_back();
    let started = session.is_started();
    let replied = replied_of(player.play(writer, session, number, line))?;
    let seen = Seen {
        before,
        after: session.machine().can_go_back(),
        started,
        called: session.events_of_call(),
    };
    match replied {
        Ok(outcome) => {
            let kind = kind_by(line, outcome);
            Some(Played {
                replied,
                did: did_of(kind, outcome, seen),
                known: known_of(kind, outcome, seen),
            })
        }
        // No outcome is known: it is taken for done.
        Err(WriteFailed) => Some(Played {
            replied,
            did: did_of(kind_of(line), Outcome::Done, seen),
            known: Known::Other,
        }),
    }
}

/// Takes the newest events back as a line does that says so, without its text.
pub(crate) fn take(session: &mut Session<Traced>, events: u32) -> Played
    requires { events ≤ length session.old.machine.past }
    ensures done { (number : ℕ) (line : List ℕ) → parsed_line line ≡ says (back_by events)
        → IsPlayed number line session.old session.new None None result }
    ensures played { result ≡ record { replied = Ok Outcome.Done; did = Did.TookBack events; known = Known.Other } }
    ensures session { session.new ≡ record session.old { machine = after_backs events session.old.machine } }
{
    session.back_by(events as usize);
    Played {
        replied: Ok(Outcome::Done),
        did: Did::TookBack(events),
        known: Known::Other,
    }
}

/// How a line came out that was played.
fn replied_of(played: Result<Outcome, BenchFault>) -> Option<Result<Outcome, WriteFailed>>
    ensures { result ≡ replied_of played }
{
    match played {
        Ok(outcome) => Some(Ok(outcome)),
        Err(BenchFault::Write) => Some(Err(WriteFailed)),
        Err(_) => None,
    }
}

/// Performs lines again, from the first line on, without their texts, and keeps what is known of each. Each must do with
/// events what it did before: where one does not, memory was refused to it, now or then.
fn replay(
    player: &mut Player,
    session: &mut Session<Traced>,
    lines: &[Text],
    did: &[Did],
    known: &mut Vec<Known>,
) -> Result<(), BenchFault>
    requires short { All IsShort (texts lines.now) }
    requires few { length lines.now ≤ 0x3FFF_FFFF }
    requires room { length session.old.machine.past < 2 ^ 64 }
    requires first { known.old.items ≡ [] }
    ensures ok { OnOk result (IsKnown session.old (texts lines.now) did.now true known.new.items
        (length lines.now) 0 session.new) }
    ensures each { OnOk result (length known.new.items ≡ length lines.now) }
    ensures room { length session.new.machine.past < 2 ^ 64 }
    ensures err { IfErr result (λ fault. fault ≡ BenchFault.Memory) }
{
    let mut nowhere = sink();
    let mut number = 0;
    for line in lines {
        number += 1;
        let Some(played) = play(player, &mut nowhere, session, number, line.as_slice()) else {
            return Err(BenchFault::Memory);
        };
        if played.replied.is_err() || !is_noted(did, known.len(), played.did) {
            return Err(BenchFault::Memory);
        }
        let Ok(()) = known.push(played.known) else {
            return Err(BenchFault::Memory);
        };
    }
    Ok(())
}

/// A session that lines left, and what is known of each of them.
pub(crate) struct Left {
    pub(crate) session: Session<Traced>,
    pub(crate) known: Vec<Known>,
}

/// The session that lines leave which are performed again on a new machine.
pub(crate) fn replayed(
    alloc: Global,
    settings: Settings,
    player: &mut Player,
    lines: &[Text],
    did: &[Did],
) -> Result<Left, BenchFault>
    requires short { All IsShort (texts lines.now) }
    requires few { length lines.now ≤ 0x3FFF_FFFF }
    ensures ok { IfOk result (λ r. IsKnown (bare (new_machine settings)) (texts lines.now) did.now true r.known.items
        (length lines.now) 0 r.session) }
    ensures room { IfOk result (λ r. length r.session.machine.past < 2 ^ 64) }
    ensures err { IfErr result (λ fault. fault ≡ BenchFault.Memory) }
{
    let Ok(mut session) = opening(alloc, settings) else {
        return Err(BenchFault::Memory);
    };
    let mut known = Vec::new(alloc);
    match replay(player, &mut session, lines, did, &mut known) {
        Ok(()) => Ok(Left { session, known }),
        Err(fault) => Err(fault),
    }
}
