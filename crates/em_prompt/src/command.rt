//! The commands by their names.
ghost use Rattle.std.specs.Prelude.{◌≡◌};
ghost use Rattle.std.specs.Str.{bytes_eq};
ghost use Rattle.em_prompt.specs.Command.{name_of, command_of, help_of, other_command, row_of};

use em_line::Look as Bench;

/// A command: what the first word of a line names.
#[derive(Clone, Copy)]
pub enum Command {
    // em_bench's lines
    Read,
    Write,
    Poke,
    Peek,
    Arrive,
    Rx,
    Tx,
    Link,
    /// A look of em_bench's that one word asks for.
    Bench(Bench),
    Init,
    Send,
    Recv,
    Stats,
    Mac,
    Turns,
    // the debugger's own
    Look,
    Who,
    Back,
    Forward,
    Goto,
    Mark,
    Marks,
    Next,
    Run,
    Load,
    Save,
    SaveOver,
    List,
    History,
    Accesses,
    Effect,
    Ring,
    Frame,
    Memory,
    Why,
    Warnings,
    Auto,
    Pcap,
    PcapOver,
    Help,
    Quit,
}

/// How many commands stand before em_bench's looks in the help.
pub(crate) const LOOKS_AT: usize = 8;

/// The table of all commands but em_bench's looks, as the help shows them: each with its name and its line of the help.
/// What is made of its rows is a macro of this file, which takes them with an argument.
macro_rules! table {
    ($made:ident $argument:expr) => {
        $made! { $argument;
            Read, "r", "r NAME|OFF: reads a register";
            Write, "w", "w NAME|OFF VAL: writes a register; VAL may be bits, as EN|BAM";
            Poke, "poke", "poke ADDR DATA: writes octets to guest memory";
            Peek, "peek", "peek ADDR LEN: shows octets of guest memory";
            Arrive, "arrive",
                "arrive DATA [LEN]: a frame arrives, with zeros up to LEN octets; arrive next|all: of a capture";
            Rx, "rx", "rx: the receive engine handles a descriptor";
            Tx, "tx", "tx: the transmit engine handles a descriptor";
            Link, "link", "link up|down: takes the link up or down";
            Init, "init", "init: starts the driver";
            Send, "send", "send DATA [LEN]: gives the driver a packet to send";
            Recv, "recv", "recv N: takes at most N packets from the driver";
            Stats, "stats", "stats: reads the driver's counters";
            Mac, "mac", "mac [DATA]: reads or sets the driver's Ethernet address";
            Turns, "turns", "turns WORD ..: what others do between the accesses of the driver's next call";
            Look, "look", "look NAME|OFF: shows a register with its bits, and no event";
            Who, "who",
                "who WATCH [again|all]: the last event that changed it; who again: the one before; who wrote NAME|OFF";
            Back, "back", "back [N]: N events back; back to LINE";
            Forward, "forward", "forward [N]: N events forward; forward to LINE";
            Goto, "goto", "goto EVENT|NAME: to where so many events are performed, or to the place of a name";
            Mark, "mark", "mark NAME: gives the place a name";
            Marks, "marks", "marks: shows the places that have names";
            Next, "next", "next [N]: performs N lines";
            Run, "run", "run [until refused|dropped|differs|warning|LINE|WATCH changes]: performs lines";
            Load, "load", "load FILE: puts the lines of a file behind the others, or offers the frames of a capture";
            Save, "save", "save FILE: writes the lines to a new file";
            SaveOver, "save!", "save! FILE: the same, over a file that is there";
            List, "list",
                "list [LINE [LAST]]: shows lines of the script: around the place or LINE, or from LINE to LAST";
            History, "history", "history [N]: shows the newest N events";
            Accesses, "accesses", "accesses NAME|ADDR [N]: the newest N reads and writes of a register or an octet";
            Effect, "effect", "effect [EVENT]: shows what an event changed";
            Ring, "ring", "ring rx|tx: shows the descriptors of a ring";
            Frame, "frame", "frame [I]: shows the frames that wait in the adapter, or octets of sent frame I, from 0";
            Memory, "memory", "memory ADDR LEN: shows guest memory in lines";
            Why, "why",
                "why [rx|tx|line|dropped|LINE]: the rule by which an event did nothing, or a step would, and who set what it looks at";
            Warnings, "warnings",
                "warnings [RULE]: what drivers got wrong, rule by rule or each place; on|off: says it behind lines, or not";
            Auto, "auto", "auto on|off: lets the engines run by themselves, or not";
            Pcap, "pcap", "pcap FILE: writes the frames that were sent to a new capture";
            PcapOver, "pcap!", "pcap! FILE: the same, over a file that is there";
            Help, "help", "help [COMMAND]: shows this";
            Quit, "quit", "quit: ends the session";
        }
    };
}

/// Those commands, as an array.
macro_rules! all {
    ($none:expr; $($command:ident, $name:literal, $help:literal;)*) => { [$(Command::$command),*] };
}

/// How many they are, beside so many others.
macro_rules! count {
    ($others:expr; $($command:ident, $name:literal, $help:literal;)*) => { $others $(+ one!($command))* };
}

macro_rules! one {
    ($command:ident) => { 1 };
}

/// The row of a command.
macro_rules! row {
    ($of:expr; $($command:ident, $name:literal, $help:literal;)*) => {
        match $of {
            Command::Bench(look) => (look.name(), look.help()),
            $(Command::$command => ($name, $help),)*
        }
    };
}

/// How many commands there are beside em_bench's looks.
const COUNT: usize = table!(count 0);

/// All of them but em_bench's looks, as the help shows them.
pub(crate) static COMMANDS: [Command; COUNT] = table!(all());

impl Command {
    /// Its row in the table of commands: its name, and its line of the help.
    fn row(self) -> (&'static str, &'static str)
        ensures name { result.0.now ≡ (row_of self).0 }
        ensures help { result.1.now ≡ (row_of self).1 }
    {
        table!(row self)
    }

    /// Its name.
    pub fn name(self) -> &'static str
        ensures { result.now ≡ name_of self }
    {
        self.row().0
    }

    /// What it does, in a line.
    pub fn help(self) -> &'static str
        ensures { result.now ≡ help_of self }
    {
        self.row().1
    }

    /// The command that a word names.
    pub(crate) fn of(word: &[u8]) -> Option<Command>
        ensures { result ≡ command_of word.now }
    {
        match Bench::of(word) {
            Some(look) => Some(Command::Bench(look)),
            None => Command::other(word),
        }
    }

    /// The command that a word names which asks for no look of em_bench's.
    fn other(word: &[u8]) -> Option<Command>
        ensures { result ≡ other_command word.now }
    {
        COMMANDS
            .iter()
            .copied()
            .find(|command| command.is_called(word))
    }

    /// Whether a word is its name.
    fn is_called(self, word: &[u8]) -> bool
        ensures { result ≡ bytes_eq word.now (name_of self) }
    {
        word == self.name().as_bytes()
    }
}
