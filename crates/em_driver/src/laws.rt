//! What the definitions of a driver's calls say together.
ghost use Rattle.std.specs.Prelude.{◌≡◌, ◌≢◌, ◌+◌, ◌≤◌, ◌++◌, ℕ, Bool, false, List, [], length, map, ⊤};
ghost use Rattle.std.specs.Prelude.{Option, None, Ok};
ghost use Rattle.em_journal.specs.History.{Call, Run};
ghost use Rattle.em_step.specs.Event.{Event, transmits};
ghost use Rattle.em_step.specs.State.{State};
ghost use Rattle.em_step.specs.Step.{step};
ghost use Rattle.em_step.specs.declared.event.Answer.{Answer};
ghost use Rattle.em_journal.specs.View.{View, after_backs};
ghost use Rattle.em_step.specs.Whole.{padded};
ghost use Rattle.em_driver.specs.World.{World, present};
ghost use Rattle.em_driver.specs.Spans.{Span, IsSpan, AreSpans, IsPrefix, after_spans};
ghost use Rattle.em_driver.specs.Spans.{all_handed, all_sent, all_stored, all_taken};
ghost use Rattle.em_driver.specs.Back.{Leg, AreLegs, Begins, after_legs, all_steps};
ghost use Rattle.em_driver.specs.Others.{IsOthers};
ghost use Rattle.em_driver.specs.Driven.{IsDriven, IsDrivenBut};
ghost use Rattle.em_driver.specs.DeviceOff.{IsOff, Rests};
ghost use Rattle.em_driver.specs.Started.{StartsInOrder};
ghost use Rattle.em_turn.specs.Turn.{event_of, stored_by, stored_in};
ghost use Rattle.em_driver.specs.Order.{InOrder, queued, waiting};
ghost use Rattle.em_turn.specs.declared.turn.Turn.{Turn};
ghost use Rattle.em_driver.specs.Course.{Course, Follows};
ghost use Rattle.em_driver.specs.Play.{play, Tells, TellsApart, wants_memory};
ghost use Rattle.em_driver.specs.CourseCalls.{course_calls};
ghost use Rattle.em_driver.specs.Answering.{answering};
ghost use Rattle.em_driver.specs.HappenedCall.{Happens};
ghost use Rattle.em_driver.specs.TellsMemory.{start_says, batch_says};
ghost use Rattle.em_driver.specs.Start.{start};
ghost use Rattle.em_driver.specs.Receive.{Answered, rx_batch};
ghost use Rattle.em_driver.specs.Transmit.{tx_batch};
ghost use Rattle.em_driver.specs.Calls.{get_link_speed, get_mac_addr, read_stats, reset_stats, set_mac_addr};
ghost use Rattle.em_driver.specs.declared.layout.Layout.{Layout};
ghost use Rattle.em_driver.specs.declared.outcome.Cause.{Cause};
ghost use Rattle.em_driver.specs.declared.stats.DeviceStats.{DeviceStats};

/// The law of a call with memory: where neither the answer of a call nor the world that it leaves
/// says that memory was refused, both are those of its course as it is played, if nobody acts beside
/// the plan. The bus says whether it can be refused memory: where it can't, only the call's own can
/// be wanting.
pub fn a_fed_call_is_played<A>()
    ensures said { (says : A → Bool) (course : Course A) (w v : World) (events : ℕ) (answer : A)
        → Tells says course → Follows w course events answer v → w.spared ≡ None → wants_memory says answer v ≡ false
        → play w course ≡ record { events = events; answer = answer; world = v } }
    ensures ample { (bus own : A → Bool) (course : Course A) (w v : World) (events : ℕ) (answer : A)
        → TellsApart bus own course → Follows w course events answer v → w.spared ≡ None
        → wants_memory own answer v ≡ false → v.scarce ≡ false
        → play w course ≡ record { events = events; answer = answer; world = v } }
{}

/// The law of any call beside whose plan nobody acts: either it is played, or the answer or the world
/// says that memory was refused, and what is named follows its course. Without a plan no turn finds
/// memory wanting.
pub fn a_call_happens<A>()
    ensures happens { (says : A → Bool) (course : Course A) (w v : World) (events : ℕ) (answer : A)
        → Tells says course → Follows w course events answer v → w.spared ≡ None
        → Happens says w course (record { events = events; answer = answer; world = v }) }
    ensures unplanned { (course : Course A) (w v : World) (events : ℕ) (answer : A)
        → Follows w course events answer v → w.plan ≡ [] → v.starved ≡ w.starved }
{}

/// What a call does to the machine, with what others do before its accesses, is a run of the machine's
/// own calls: those of the course as it is played, and some where memory was refused.
pub fn a_call_is_a_run<A>()
    ensures played { (course : Course A) (w : World)
        → Run w.machine (course_calls w course) (play w course).world.machine }
    ensures followed { (course : Course A) (w v : World) (events : ℕ) (answer : A)
        → Follows w course events answer v → (calls : List Call) × Run w.machine calls v.machine }
{}

/// A call whose answers are put otherwise does what the call does, and tells of memory as it does.
pub fn answers_are_put_otherwise<A, B>()
    ensures follows { (f : A → B) (course : Course A) (w v : World) (events : ℕ) (answer : A)
        → Follows w course events answer v → Follows w (answering f course) events (f answer) v }
    ensures tells { (f : A → B) (says : B → Bool) (course : Course A)
        → Tells (λ a. says (f a)) course → Tells says (answering f course) }
{}

/// Wherever memory is refused to a call of the driver, its answer says so. Only `rx_batch` takes
/// memory of its own; the others can be refused it by their bus alone, whatever `own` is.
pub fn calls_tell_of_memory()
    ensures start { (own : Option Cause → Bool) (l : Layout) → TellsApart start_says own (start l) }
    ensures rx_batch { (l : Layout) (number n : ℕ) (queue : List (List ℕ))
        → Tells batch_says (rx_batch l number n queue) }
    ensures tx_batch { (own : Answered → Bool) (l : Layout) (number : ℕ) (queue : List (List ℕ))
        → TellsApart batch_says own (tx_batch l number queue) }
    ensures get_mac_addr { (bus own : List ℕ → Bool) → TellsApart bus own get_mac_addr }
    ensures set_mac_addr { (bus own : ⊤ → Bool) (octets : List ℕ) → TellsApart bus own (set_mac_addr octets) }
    ensures read_stats { (bus own : DeviceStats → Bool) (counted : DeviceStats)
        → TellsApart bus own (read_stats counted) }
    ensures reset_stats { (bus own : ⊤ → Bool) → TellsApart bus own reset_stats }
    ensures get_link_speed { (bus own : ℕ → Bool) → TellsApart bus own get_link_speed }
{}

/// The law of one event of others, which writes none of the driver's registers and none of its memory:
/// from a state as a driver keeps it, but for the status octet of descriptor RDT + 1 at most, it leads
/// to another such state and adds to what waits what it stored. What is queued and what is on the wire
/// is as before, but that a transmit step may send.
pub fn one_event_of_others()
    ensures kept { (l : Layout) (s : State) (e : Event) (r : Answer × State)
        → IsDrivenBut l s → IsOthers l e → step s e ≡ Ok r → IsDrivenBut l r.1 }
    ensures driven { (l : Layout) (s : State) (e : Event) (r : Answer × State)
        → IsDriven l s → IsOthers l e → step s e ≡ Ok r → IsDriven l r.1 }
    ensures receive { (l : Layout) (s : State) (e : Event) (r : Answer × State)
        → IsDrivenBut l s → IsOthers l e → step s e ≡ Ok r → waiting l r.1 ≡ waiting l s ++ stored_in e r.0 }
    ensures transmit { (l : Layout) (s : State) (e : Event) (r : Answer × State)
        → IsDrivenBut l s → IsOthers l e → step s e ≡ Ok r → r.1.wire ++ queued l r.1 ≡ s.wire ++ queued l s }
    ensures rest { (l : Layout) (s : State) (e : Event) (r : Answer × State)
        → IsDrivenBut l s → IsOthers l e → step s e ≡ Ok r → e ≢ transmits
        → (r.1.wire ≡ s.wire) × (queued l r.1 ≡ queued l s) }
    // the turns of a plan are such events
    ensures turns { (l : Layout) (t : Turn) → IsOthers l (event_of t) }
{}

/// Before a start enables the device no turn moves anything: an arrival is dropped, and both engines
/// are idle.
pub fn a_device_that_is_off_rests()
    ensures { (s : State) (t : Turn) (r : Answer × State) → IsOff s → step s (event_of t) ≡ Ok r
        → Rests s r.1 × (stored_by t r.0 ≡ []) }
{}

/// The law of the run, over every list of a driver's calls and of other actors' events between them,
/// whatever these are, as long as they write none of the driver's registers and none of its memory: the
/// packets handed out are a prefix of the frames stored since a moment when those that wait were stored,
/// and the frames sent are a prefix of the packets taken, padded, since a moment when none was queued.
/// Each call that is in order is a span of such a list, and so is each event. After a start these are
/// the frames stored since its reset, and all the packets taken.
pub fn packets_in_order()
    ensures calls { (l : Layout) (w v : World) (handed taken : List (List ℕ)) (h : InOrder l w v handed taken)
        → IsSpan l (present w)
        (record { stored = h.stored; handed = handed; taken = taken; sent = h.sent; now = present v }) }
    ensures events { (l : Layout) (s : State) (e : Event) (r : Answer × State)
        → IsDriven l s → IsOthers l e → step s e ≡ Ok r
        → (sent : List (List ℕ))
        × IsSpan l s (record { stored = stored_in e r.0; handed = []; taken = []; sent = sent; now = r.1 }) }
    ensures received { (l : Layout) (s : State) (spans : List Span) (before : List (List ℕ))
        → waiting l s ≡ before → AreSpans l s spans → IsPrefix (all_handed spans) (before ++ all_stored spans) }
    ensures sent { (l : Layout) (s : State) (spans : List Span)
        → queued l s ≡ [] → AreSpans l s spans → IsPrefix (all_sent spans) (map padded (all_taken spans)) }
    ensures wire { (l : Layout) (s : State) (spans : List Span)
        → AreSpans l s spans → (after_spans s spans).wire ≡ s.wire ++ all_sent spans }
    ensures started { (l : Layout) (w v : World) (events : ℕ) (h : StartsInOrder l w events v) (spans : List Span)
        → AreSpans l (present v) spans
        → IsPrefix (all_handed spans) (h.stored ++ all_stored spans)
        × IsPrefix (all_sent spans) (map padded (all_taken spans)) }
{}

/// Steps back over any list of calls and events, each call with what others do before its accesses, lead
/// to the state that the first of them began in. So steps back that end where some call began lead to the
/// state of that moment, which is driven if it was, and the equations start again from there: calls and
/// events from there on go on with the list up to that moment, and are taken back with it, however many
/// older records the budget dropped for those that were taken back before.
pub fn steps_back_start_again<A>()
    ensures { (l : Layout) (m v : View) (legs : List Leg)
        → AreLegs A m legs → Begins v (after_legs m legs) → all_steps legs ≤ length v.past
        → ((after_backs (all_steps legs) v).present ≡ m.present)
        × Begins (after_backs (all_steps legs) v) m
        × (IsDriven l m.present → IsDriven l (after_backs (all_steps legs) v).present) }
{}
