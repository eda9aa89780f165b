//! The numbers of events: all that lines performed are counted, those taken back since among them.
ghost use Rattle.std.specs.Prelude.{◌≡◌, ◌+◌, ◌*◌, ◌<◌, ◌≤◌, ◌^◌, ℕ, length, drop, take};
ghost use Rattle.em_named.specs.Names.{names};
ghost use Rattle.em_named.specs.Numbers.{above, end_of, line_of, name_of, performed_by};

use crate::did::{Did, Name};

/// How many events the first so many lines performed.
#[derive(Clone, Copy)]
pub struct End {
    pub line: usize,
    pub events: u64,
}

/// How many events a line performed.
pub fn performed_by(did: Did) -> u64
    ensures { result ≡ performed_by did }
{
    match did {
        Did::Performed(count) => count,
        Did::TookBack(_) => 0,
    }
}

/// How many events the first `line` lines performed, sought from another end.
pub fn end_of(did: &[Did], from: End, line: usize) -> u64
    requires from { from.events ≡ end_of from.line did.now }
    requires there { from.line ≤ length did.now }
    requires within { line ≤ length did.now }
    requires room { (k : ℕ) → end_of k did.now < 2 ^ 64 }
    ensures { result ≡ end_of line did.now }
{
    let mut end = from;
    while end.line > line {
        end = before(did, end);
    }
    while end.line < line {
        end = behind(did, end);
    }
    end.events
}

/// The end of the line that performed an event, by the event's number, sought from another end: of the last line before
/// which fewer events were performed. It is that of no line for number 0.
pub fn end_behind(did: &[Did], from: End, event: u64) -> End
    requires from { from.events ≡ end_of from.line did.now }
    requires there { from.line ≤ length did.now }
    requires room { (k : ℕ) → end_of k did.now < 2 ^ 64 }
    ensures line { result.line ≡ line_of event did.now }
    ensures events { result.events ≡ end_of result.line did.now }
    ensures within { result.line ≤ length did.now }
{
    let mut end = from;
    while end.line > 0 && event <= before(did, end).events {
        end = before(did, end);
    }
    while end.line < did.len() && end.events < event {
        end = behind(did, end);
    }
    end
}

/// The end of one line less.
fn before(did: &[Did], end: End) -> End
    requires end { end.events ≡ end_of end.line did.now }
    requires some { 0 < end.line }
    requires within { end.line ≤ length did.now }
    ensures line { result.line + 1 ≡ end.line }
    ensures events { result.events ≡ end_of result.line did.now }
{
    let line = end.line - 1;
    End {
        line,
        events: end.events - performed_by(did[line]),
    }
}

/// The end of one line more.
fn behind(did: &[Did], end: End) -> End
    requires end { end.events ≡ end_of end.line did.now }
    requires within { end.line < length did.now }
    requires room { (k : ℕ) → end_of k did.now < 2 ^ 64 }
    ensures line { result.line ≡ end.line + 1 }
    ensures events { result.events ≡ end_of result.line did.now }
{
    End {
        line: end.line + 1,
        events: end.events + performed_by(did[end.line]),
    }
}

/// The name of an event by its number; none where not so many were performed, and for number 0.
pub fn name_of(did: &[Did], from: End, event: u64) -> Option<Name>
    requires from { from.events ≡ end_of from.line did.now }
    requires there { from.line ≤ length did.now }
    requires room { (k : ℕ) → end_of k did.now < 2 ^ 64 }
    ensures { result ≡ name_of event did.now }
{
    let end = end_behind(did, from, event);
    if event == 0 || end.events < event {
        return None;
    }
    let line = end.line;
    Some(Name {
        line,
        access: event - before(did, end).events,
    })
}

/// How many of the events that lie so many steps back behind the first `from.line` lines, and further, have a greater
/// number than this.
pub fn above(did: &[Did], from: End, back: u64, event: u64) -> u64
    requires from { from.events ≡ end_of from.line did.now }
    requires there { from.line ≤ length did.now }
    requires deep { back + length did.now * 2 ^ 32 < 2 ^ 64 }
    requires room { (k : ℕ) → end_of k did.now < 2 ^ 63 }
    ensures { result ≡ above event did.now (drop back (names (take from.line did.now))) }
{
    let mut end = from;
    let mut depth = back;
    let mut count = 0;
    while end.line > 0 && event < end.events {
        match did[end.line - 1] {
            Did::Performed(performed) => {
                if depth < performed {
                    count += (performed - depth).min((end.events - depth).saturating_sub(event));
                    depth = 0;
                } else {
                    depth -= performed;
                }
            }
            Did::TookBack(took) => depth += u64::from(took),
        }
        end = before(did, end);
    }
    count
}
