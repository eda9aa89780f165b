//! What the words of a line are.
ghost use Rattle.std.specs.Prelude.{◌≡◌};
ghost use Rattle.em_prompt.specs.Kind.{called, rule};

use crate::number::Number;

/// One of a few words.
#[derive(Clone, Copy)]
pub enum Choice {
    /// `up` or `down`.
    Way,
    /// `rx` or `tx`.
    Side,
    /// `again` or `all`.
    More,
    /// `until`.
    Until,
    /// `changes`.
    Changes,
    /// `on` or `off`.
    Switch,
    /// `rx`, `tx`, `line`, `dropped`, or the number of a line.
    Matter,
}

/// What a word of a line is.
#[derive(Clone, Copy)]
pub enum Kind {
    /// A register, by its name or its offset; any offset will do.
    Register,
    /// A register of the table, by its name or its offset.
    Known,
    /// A register of the table by its name, or an address in guest memory.
    Target,
    /// A value of the register before it: a number, or names of bits.
    Value,
    /// An address in guest memory.
    Address,
    /// Octets.
    Data,
    /// 6 octets.
    Ethernet,
    /// How long a frame of the octets before it is.
    FrameLen,
    /// A turn of a plan.
    Turn,
    /// What is watched, in one word.
    Watch,
    /// The name of a file.
    File,
    /// The name of a place.
    Name,
    /// The last of several lines, by its number.
    LastLine,
    /// A number in decimal digits.
    Number(Number),
    /// One of a few words.
    Choice(Choice),
}

impl Kind {
    /// What a word of this kind is called.
    pub(crate) fn called(self) -> &'static str
        ensures { result.now ≡ called self }
    {
        match self {
            Kind::Register => "OFF",
            Kind::Known => "a register",
            Kind::Target => "a register or ADDR",
            Kind::Value => "VAL",
            Kind::Address => "ADDR",
            Kind::Data | Kind::Ethernet => "DATA",
            Kind::FrameLen => "LEN",
            Kind::Turn => "a turn",
            Kind::Watch => "WATCH",
            Kind::File => "FILE",
            Kind::Name => "NAME",
            Kind::LastLine => "LAST",
            Kind::Number(Number::Peeked) | Kind::Number(Number::Watched) => "LEN",
            Kind::Number(Number::Packets) => "N",
            Kind::Number(Number::Count) => "a count",
            Kind::Number(Number::Line) => "a line",
            Kind::Number(Number::Event) => "an event",
            Kind::Number(Number::Index) => "I",
            Kind::Number(Number::Word) => "a word of the PHY",
            Kind::Choice(Choice::Way) => "up or down",
            Kind::Choice(Choice::Side) => "rx or tx",
            Kind::Choice(Choice::More) => "again or all",
            Kind::Choice(Choice::Until) => "until",
            Kind::Choice(Choice::Changes) => "changes",
            Kind::Choice(Choice::Switch) => "on or off",
            Kind::Choice(Choice::Matter) => "rx, tx, line, dropped or LINE",
        }
    }

    /// What is said of it, behind that, where a word is none.
    pub(crate) fn rule(self) -> &'static str
        ensures { result.now ≡ rule self }
    {
        match self {
            Kind::Name => " begins with a letter",
            Kind::Value => " is 1 to 8 hexadecimal digits, or names of bits",
            Kind::Address => " is 1 to 16 hexadecimal digits",
            Kind::Data => " is octets, of two hexadecimal digits each",
            Kind::Ethernet => " is 6 octets",
            Kind::FrameLen => " is at most 32768, and not below DATA's octets",
            Kind::LastLine => " is at most 9999999, and not below LINE",
            Kind::Turn => " is rx, tx, ., arrive:DATA or arrive:DATA:LEN",
            Kind::Number(Number::Peeked) => " is 1 to 16384",
            Kind::Number(Number::Watched) => " is 1 to 16",
            Kind::Number(Number::Packets) => " is 0 to 1024",
            Kind::Number(Number::Count) => " is wanted, of 1 to 65536",
            Kind::Number(Number::Line) => " is wanted, of 1 to 9999999",
            Kind::Number(Number::Event) => " is wanted, of 0 to 9999999",
            Kind::Number(Number::Index) => " is 0 to 9999999",
            Kind::Number(Number::Word) => " is wanted, of 0 to 31",
            _ => " is wanted",
        }
    }
}
