//! What the definitions of a script's text say together.
ghost use Rattle.std.specs.Prelude.{◌≡◌, ℕ, List, Option, None, Some};
ghost use Rattle.em_driver.specs.World.{World};
ghost use Rattle.em_driver.specs.Course.{Follows};
ghost use Rattle.em_driver.specs.Play.{Played};
ghost use Rattle.em_driver.specs.HappenedCall.{Happens};
ghost use Rattle.em_script.specs.Session.{Session};
ghost use Rattle.em_line.specs.Request.{Request};
ghost use Rattle.em_script.specs.DriverAnswer.{DriverAnswer, says_memory, call_text};
ghost use Rattle.em_script.specs.ScriptText.{SaysMemory};
ghost use Rattle.em_script.specs.Calling.{course_of, CanBeDone};
ghost use Rattle.em_line.specs.ParsedLine.{ParsedLine};
ghost use Rattle.em_script.specs.RefusedAt.{RefusedAt};
ghost use Rattle.em_script.specs.Reply.{after_line, IsAllowed};
ghost use Rattle.em_script.specs.PlayedLine.{PlayedLine, after_all, AreAllowed};
ghost use Rattle.em_script.specs.Did.{did_of, all_did, DidSo, AllDidSo};

/// What a driver does on a request, where nobody acts beside the plan, is its course as it is played, or
/// memory was refused to the call or to a turn, and the text says so.
pub fn a_request_is_played_or_says_so()
    ensures happens { (request : Request) (w v : World) (events : ℕ) (answer : DriverAnswer)
        → Follows w (course_of request w) events answer v → w.spared ≡ None
        → Happens says_memory w (course_of request w) (record { events = events; answer = answer; world = v }) }
    ensures says { (named : Played DriverAnswer) (request : Request) (session : Session)
        → CanBeDone (Some named) request session → SaysMemory (call_text session.plan named) }
{}

/// What a line did with events is what calls of the machine did that lead from the session before it to
/// the one after it. So a call of a driver performs as many events as the session then says, with those
/// of the turns that fell into it, where memory is refused, too.
pub fn a_line_did_so()
    ensures line { (memory : Option RefusedAt) (parsed : ParsedLine) (session : Session)
        → IsAllowed memory parsed session
        → DidSo session (after_line memory parsed session) (did_of memory parsed session) }
    ensures lines { (all : List PlayedLine) (session : Session) → AreAllowed all session
        → AllDidSo session (after_all all session) (all_did all session) }
{}
