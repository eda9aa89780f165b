//! What a line says.

use crate::bench_line::BenchLine;
use crate::command::Command;
use crate::watch::Watch;
use em_regs::Reg;

/// A ring of descriptors.
#[derive(Clone, Copy)]
pub enum Side {
    Receive,
    Transmit,
}

/// Which changes of a watched thing.
#[derive(Clone, Copy)]
pub enum Which {
    /// The newest one.
    Newest,
    /// The one before that which was told last.
    Again,
    All,
}

/// Where a run ends.
#[derive(Clone, Copy)]
pub enum Until {
    /// Where an event is refused.
    Refused,
    /// Where a frame is dropped.
    Dropped,
    /// Where an answer is another one than the line expects.
    Differs,
    /// Where a line has a warning.
    Warning,
    /// Before the line of this number.
    Line(u32),
    /// Where this changes.
    Changes(Watch),
}

/// Which lines of a script.
#[derive(Clone, Copy)]
pub enum Lines {
    /// Those around the place.
    Here,
    /// Those around the line of this number.
    Around(u32),
    /// Those from one number to another.
    Between(u32, u32),
}

/// What is accessed.
#[derive(Clone, Copy)]
pub enum Target {
    Register(Reg),
    /// The octet of guest memory at an address.
    Octet(u64),
}

/// What `why` asks about.
#[derive(Clone, Copy)]
pub enum Matter {
    /// The newest event that did nothing.
    Newest,
    /// The newest frame that was dropped.
    Dropped,
    /// The event of the line of this number.
    Line(u32),
    /// A step of an engine, as things are now.
    Step(Side),
    /// The interrupt line, as it is now.
    Interrupt,
}

/// What is shown, and changes nothing.
#[derive(Clone, Copy)]
pub enum Shown {
    Look(Reg),
    /// Lines of the script.
    List(Lines),
    History(Option<u32>),
    /// The newest accesses, so many.
    Accesses(Target, Option<u32>),
    /// The newest event that wrote a register.
    Wrote(Reg),
    /// What an event changed: the newest one, or another.
    Effect(Option<u32>),
    Ring(Side),
    /// The frames in the FIFO, or one of those that were sent.
    Frame(Option<u32>),
    /// So many octets of guest memory, from an address on.
    Memory(u64, u32),
    /// The places that have names.
    Marks,
    /// Why an event did nothing, or why things are as they are.
    Why(Matter),
    /// What drivers get wrong, rule by rule.
    Warnings,
    /// The help, whole or for one command.
    Help(Option<Command>),
}

/// What a line says.
#[derive(Clone, Copy)]
pub enum Typed<'a> {
    /// Nothing: a line without a word, or a comment.
    Silent,
    /// A line of em_bench's.
    Line(BenchLine<'a>),
    /// Show something.
    Show(Shown),
    /// Which event changed this.
    Who(Watch, Which),
    /// Which event changed before that what was asked for last.
    WhoAgain,
    /// So many events back.
    Back(u32),
    /// Back to the line of this number.
    BackTo(u32),
    Forward(u32),
    ForwardTo(u32),
    /// To where so many events are performed.
    Goto(u32),
    /// To the place of this name.
    GotoMark(&'a [u8]),
    /// Name the place so.
    Mark(&'a [u8]),
    /// Perform so many lines.
    Next(u32),
    /// Perform all lines.
    Run,
    RunUntil(Until),
    Load(&'a [u8]),
    Save(&'a [u8]),
    /// Save over a file that is there.
    SaveOver(&'a [u8]),
    /// Say what drivers get wrong, or do not.
    Warnings(bool),
    /// Where the rule of this name says so.
    WarningsOf(&'a [u8]),
    /// Let the engines run by themselves, or not.
    Auto(bool),
    /// Bring the next frame of a capture that was loaded.
    ArriveNext,
    /// Bring those that are left.
    ArriveAll,
    /// Write the frames that were sent as a capture.
    Pcap(&'a [u8]),
    /// The same, over a file that is there.
    PcapOver(&'a [u8]),
    Quit,
}
