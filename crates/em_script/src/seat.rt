//! Where the machine of a session is.
ghost use Rattle.std.specs.Prelude.{◌≡◌, ◌≢◌};
ghost use Rattle.em_script.specs.Seat.{world_in};

use em_driver::{E1000, Turns};
use em_journal::{Acts, Machine};
use std::mem;

/// A machine alone, or under a driver.
#[derive(Drop)]
pub enum Seat<M: Acts = Machine> {
    Bare(Turns<M>),
    Driven(E1000<Turns<M>>),
    /// While a driver is started; never between two lines.
    Moved,
}

impl<M: Acts> Seat<M> {
    /// The machine with its plan, without the driver.
    pub fn into_turns(self) -> Turns<M>
        requires { self ≢ Seat.Moved }
        ensures { result ≡ world_in self }
    {
        match self {
            Seat::Bare(turns) => turns,
            Seat::Driven(driver) => driver.into_bus(),
            Seat::Moved => unreachable!(),
        }
    }

    /// Puts a machine into the seat from which one was moved.
    pub fn put(&mut self, seat: Seat<M>)
        requires { self.old ≡ Seat.Moved }
        ensures { self.new ≡ seat }
    {
        match mem::replace(self, seat) {
            Seat::Moved => {}
            Seat::Bare(_) | Seat::Driven(_) => unreachable!(),
        }
    }
}
