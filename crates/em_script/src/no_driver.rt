//! Why a session calls no driver.
ghost use Rattle.std.specs.Prelude.{◌≡◌};
ghost use Rattle.em_script.specs.NoDriver.{code_of, name_of};

use thiserror::Error;

/// The session has no driver that could be called: none was started, or its start was refused.
#[derive(Clone, Copy, PartialEq, Eq, Debug, Error)]
#[error("{}", self.name())]
pub struct NoDriver;

impl NoDriver {
    /// The number of the refusal (this project's profile).
    pub fn code(self) -> u32
        ensures { result ≡ code_of }
    {
        23
    }

    /// The name of the refusal, as it is printed.
    pub fn name(self) -> &'static str
        ensures { result.now ≡ name_of }
    {
        "NoDriver"
    }
}
