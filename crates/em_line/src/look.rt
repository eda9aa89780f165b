//! Looks at a machine that a line of one word asks for.
ghost use Rattle.std.specs.Prelude.{◌≡◌};
ghost use Rattle.em_line.specs.Look.{help_of, look_called, name_of, row_of};

use em_text::is_name;

/// A look at a machine that a line of one word asks for. It shows something and changes nothing.
#[derive(Clone, Copy, PartialEq, Eq, Debug)]
pub enum Look {
    /// Whether the interrupt line is asserted.
    InterruptLine,
    /// Every register that is not zero.
    Registers,
    /// The frames that were sent.
    Wire,
}

/// The table of looks, as a help shows them: each with the word that asks for it, as octets and as a text, and its line of
/// a help. What is made of its rows is a macro of this file, which takes them with an argument.
macro_rules! table {
    ($made:ident $argument:expr) => {
        $made! { $argument;
            InterruptLine, b"line", "line", "line: shows the interrupt line";
            Registers, b"regs", "regs", "regs: shows every register that is not zero";
            Wire, b"wire", "wire", "wire: shows the frames that were sent";
        }
    };
}

/// All looks, as an array.
macro_rules! all {
    ($none:expr; $($look:ident, $octets:literal, $word:literal, $help:literal;)*) => { [$(Look::$look),*] };
}

/// How many there are, beside so many others.
macro_rules! count {
    ($others:expr; $($look:ident, $octets:literal, $word:literal, $help:literal;)*) => { $others $(+ one!($look))* };
}

macro_rules! one {
    ($look:ident) => { 1 };
}

/// The row of a look.
macro_rules! row {
    ($of:expr; $($look:ident, $octets:literal, $word:literal, $help:literal;)*) => {
        match $of {
            $(Look::$look => ($word, $help),)*
        }
    };
}

/// The look that a word asks for. The names are tested one by one, for speed.
macro_rules! asked {
    ($by:expr; $($look:ident, $octets:literal, $word:literal, $help:literal;)*) => {{
        $(if is_name($by, $octets) {
            return Some(Look::$look);
        })*
        None
    }};
}

/// How many looks there are.
const COUNT: usize = table!(count 0);

/// All of them, as a help shows them.
pub static LOOKS: [Look; COUNT] = table!(all());

impl Look {
    ghost use Rattle.std.specs.Prelude.{◌≡◌};
    ghost use Rattle.em_line.specs.Look.{help_of, look_called, name_of, row_of};

    /// Its row in the table of looks: the word that asks for it, and a line of a help.
    #[inline(always)]
    fn row(self) -> (&'static str, &'static str)
        ensures name { result.0.now ≡ (row_of self).0 }
        ensures help { result.1.now ≡ (row_of self).1 }
    {
        table!(row self)
    }

    /// The word that asks for it.
    #[inline(always)]
    pub fn name(self) -> &'static str
        ensures { result.now ≡ name_of self }
    {
        self.row().0
    }

    /// What it shows, in a line of a help.
    pub fn help(self) -> &'static str
        ensures { result.now ≡ help_of self }
    {
        self.row().1
    }

    /// The look that a word asks for, if it asks for one.
    #[inline(always)]
    pub fn of(word: &[u8]) -> Option<Look>
        ensures { result ≡ look_called word.now }
    {
        table!(asked word)
    }
}
