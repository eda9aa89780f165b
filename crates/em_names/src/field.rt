//! A bit or a field of a register, as a row of the manual's tables.
/// How a field is shown.
#[derive(Clone, Copy, PartialEq, Eq, Debug)]
pub enum Form {
    /// A bit: its name where it is set.
    Bit,
    /// A number, in decimal digits, where it is not 0.
    Number,
    /// A number, in 4 hexadecimal digits, where it is not 0.
    Digits,
    /// SPEED and ASDV: in Mb/s, where it is not 0.
    Speed,
    /// RCTL.BSIZE: the size of a receive buffer in octets, by BSEX too.
    Size,
}

/// A bit or a field of a register.
#[derive(Clone, Copy, Debug)]
pub struct Field {
    /// The manual's name.
    pub name: &'static str,
    /// Its bits.
    pub mask: u32,
    /// The lowest of them.
    pub lowest: u32,
    /// How it is shown.
    pub form: Form,
}
