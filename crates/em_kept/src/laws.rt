//! What is read in lines that were kept.
ghost use Rattle.std.specs.Prelude.{◌≡◌, ◌<◌, ◌≤◌, ◌^◌, ℕ, true, false, List};
ghost use Rattle.std.specs.List.{flat_map};
ghost use Rattle.em_eeprom.specs.Eeprom.{IsEeprom};
ghost use Rattle.em_regs.specs.declared.profile.Profile.{Profile};
ghost use Rattle.em_step.specs.Event.{Event};
ghost use Rattle.em_step.specs.declared.event.Answer.{Answer};
ghost use Rattle.em_step.specs.declared.refusal.Refusal.{Refusal};
ghost use Rattle.em_text.specs.Lines.{lines_of};
ghost use Rattle.em_line.specs.Command.{back_by, event};
ghost use Rattle.em_output.specs.Output.{answer_text, back_text, refusal_text};
ghost use Rattle.em_kept.specs.Source.{IsPlain, Source, last_of, shown};
ghost use Rattle.em_kept.specs.Kept.{back_line, event_line, has_line, refused_line, text_of};
ghost use Rattle.em_kept.specs.Head.{head_text};
ghost use Rattle.em_kept.specs.ReadBack.{AreSilent, AreWhole, HasOctets, IsSilent, IsTyped, IsTypedAnswer};
ghost use Rattle.em_kept.specs.ReadBack.{IsTypedSource, ReadsBack};

/// The line of an event says this event, expects what em_output writes for its answer, and comes from where its caller
/// says.
pub fn events_are_read_back()
    ensures { (e : Event) (answer : Answer) (source : Source) → IsTyped e → HasOctets e → IsTypedAnswer answer
        → IsTypedSource source
        → ReadsBack (event_line e answer source) (event e) (answer_text answer) source }
{}

/// So does the line of an event that was refused, where it is one that is played.
pub fn refusals_are_read_back()
    ensures { (e : Event) (refusal : Refusal) (source : Source) → IsTyped e → IsTypedSource source
        → has_line e refusal ≡ true
        → ReadsBack (refused_line e refusal source) (event e) (refusal_text refusal) source }
{}

/// Else it says nothing.
pub fn other_refusals_are_silent()
    ensures { (e : Event) (refusal : Refusal) (source : Source) → IsTyped e → IsTypedSource source
        → has_line e refusal ≡ false → IsSilent (refused_line e refusal source) }
{}

/// A line of steps back says how many were asked for, and expects how many were taken.
pub fn steps_back_are_read_back()
    ensures { (asked taken : ℕ) (source : Source) → 0 < asked → asked ≤ 65_536 → taken < 2 ^ 64 → IsTypedSource source
        → ReadsBack (back_line asked taken source) (back_by asked) (back_text taken) source }
{}

/// The lines of a text are those that were written.
pub fn lines_stay_lines()
    ensures { (lines : List (List ℕ)) → AreWhole lines → lines_of (flat_map text_of lines) ≡ lines }
{}

/// What a kept run begins with does nothing when it is played.
pub fn the_head_is_silent()
    ensures { (profile : Profile) (base memory budget : ℕ) (words : List ℕ) → memory < 2 ^ 64 → budget < 2 ^ 64
        → IsEeprom words → AreSilent (lines_of (head_text profile base memory budget words)) }
{}

/// A name of at most 4,096 octets of which none is replaced is written as it is.
pub fn a_plain_name_stays()
    ensures { (file : List ℕ) → IsPlain file → shown (last_of file) ≡ file }
{}
