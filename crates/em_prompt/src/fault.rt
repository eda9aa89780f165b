//! What is wrong with the words behind a name.

use crate::kind::Kind;
use em_regs::Reg;

/// What is wrong with the words behind a name.
#[derive(Clone, Copy)]
pub enum Fault<'a> {
    /// A word of this kind is not there.
    Missing(Kind),
    /// This word is one more than the form has.
    TooMany(&'a [u8]),
    /// A word is none of this kind.
    No(Kind),
    /// So many hexadecimal digits are no octets.
    OddDigits(usize),
    /// A word names no register.
    NoRegister(&'a [u8]),
    /// A word names no bit of this register.
    NoBit(&'a [u8], Reg),
    /// A word names no command.
    NoCommand(&'a [u8]),
}
