//! Words of gdb's, and what does here what they do there.
ghost use Rattle.std.specs.Prelude.{◌≡◌};
ghost use Rattle.std.specs.Str.{bytes_eq};
ghost use Rattle.em_prompt.specs.Foreign.{foreign_called, here_of, row_of, word_of};

/// A word of gdb's that is no command here.
#[derive(Clone, Copy)]
pub enum Foreign {
    Break,
    B,
    Continue,
    C,
    Step,
    S,
    Stepi,
    Si,
    Finish,
    Until,
    ReverseStep,
    ReverseNext,
    ReverseStepi,
    ReverseContinue,
    Watch,
    Awatch,
    Print,
    P,
    X,
    Info,
    I,
    Backtrace,
    Bt,
    Where,
    Set,
}

/// The table of them: each with the word, and with what is typed here.
macro_rules! table {
    ($made:ident $argument:expr) => {
        $made! { $argument;
            Break, "break", "run until LINE";
            B, "b", "run until LINE";
            Continue, "continue", "run";
            C, "c", "run";
            Step, "step", "next, forward";
            S, "s", "next, forward";
            Stepi, "stepi", "forward";
            Si, "si", "forward";
            Finish, "finish", "next";
            Until, "until", "run until LINE";
            ReverseStep, "reverse-step", "back";
            ReverseNext, "reverse-next", "back";
            ReverseStepi, "reverse-stepi", "back";
            ReverseContinue, "reverse-continue", "goto 0";
            Watch, "watch", "run until WATCH changes";
            Awatch, "awatch", "accesses NAME|ADDR";
            Print, "print", "look NAME";
            P, "p", "look NAME";
            X, "x", "memory ADDR LEN";
            Info, "info", "regs, ring rx|tx, frame, line";
            I, "i", "regs, ring rx|tx, frame, line";
            Backtrace, "backtrace", "history";
            Bt, "bt", "history";
            Where, "where", "history";
            Set, "set", "w NAME VAL, poke ADDR DATA";
        }
    };
}

/// Those words, as an array.
macro_rules! all {
    ($none:expr; $($foreign:ident, $word:literal, $here:literal;)*) => { [$(Foreign::$foreign),*] };
}

/// How many they are.
macro_rules! count {
    ($none:expr; $($foreign:ident, $word:literal, $here:literal;)*) => { $none $(+ one!($foreign))* };
}

macro_rules! one {
    ($foreign:ident) => { 1 };
}

/// The row of a word.
macro_rules! row {
    ($of:expr; $($foreign:ident, $word:literal, $here:literal;)*) => {
        match $of {
            $(Foreign::$foreign => ($word, $here),)*
        }
    };
}

const COUNT: usize = table!(count 0);

static ALL: [Foreign; COUNT] = table!(all());

impl Foreign {
    fn row(self) -> (&'static str, &'static str)
        ensures word { result.0.now ≡ (row_of self).0 }
        ensures here { result.1.now ≡ (row_of self).1 }
    {
        table!(row self)
    }

    /// The word.
    fn word(self) -> &'static str
        ensures { result.now ≡ word_of self }
    {
        self.row().0
    }

    /// What is typed here.
    pub(crate) fn here(self) -> &'static str
        ensures { result.now ≡ here_of self }
    {
        self.row().1
    }

    /// The one that a word is.
    pub(crate) fn of(word: &[u8]) -> Option<Foreign>
        ensures { result ≡ foreign_called word.now }
    {
        ALL.iter().copied().find(|foreign| foreign.is_called(word))
    }

    fn is_called(self, word: &[u8]) -> bool
        ensures { result ≡ bytes_eq word.now (word_of self) }
    {
        word == self.word().as_bytes()
    }
}
