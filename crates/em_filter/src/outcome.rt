//! The verdicts that there are.
use em_address::Kind;

/// What the filters say of a frame that arrives.
#[derive(Clone, Copy, PartialEq, Eq, Debug)]
pub enum Verdict {
    /// Its destination is not accepted, or the VLAN filter does not let it pass.
    Reject,
    /// It is shorter than a frame can be.
    Undersize,
    /// It is longer than RCTL.LPE allows.
    Oversize,
    /// It is to be stored.
    Accept(Kind),
}
