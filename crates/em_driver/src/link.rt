//! The speed of the link.
ghost use Rattle.std.specs.Prelude.{◌≡◌, ◌/◌, ◌%◌, ◌==◌};
ghost use Rattle.em_driver.specs.Calls.{speed_in};

use bitflags::Flags;
use em_regs::Status;

/// Whether STATUS says that the link is up.
#[tactic(auto, using(crate::proofs::course::BitFields::second_bit))]
fn is_up(status: u32) -> bool
    ensures { result ≡ (status / 2 % 2 == 1) }
{
    Status::from_bits_retain(status).contains(Status::LU)
}

/// The speed that STATUS holds, in Mb/s; 0 where the link is down.
#[tactic(auto, using(crate::proofs::course::BitFields::speed_field))]
pub(crate) fn speed_of(status: u32) -> u16
    ensures { result ≡ speed_in status }
{
    if !is_up(status) {
        return 0;
    }
    let speed = status & Status::SPEED.bits();
    if speed == 0 {
        10
    } else if speed == Status::SPEED_100.bits() {
        100
    } else {
        1000
    }
}
