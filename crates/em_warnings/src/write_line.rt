//! The write that an event is.
ghost use Rattle.std.specs.Prelude.{◌≡◌};
ghost use Rattle.em_step.specs.Event.{plain};
ghost use Rattle.em_warnings.specs.WriteLine.{written_by};

use em_regs::{Profile, Reg};
use em_step::Event;

/// The register that an event writes, and the value; none where it writes none, or no profile has a register there.
pub(crate) fn written_by(event: Event<'_>) -> Option<(Reg, u32)>
    ensures { result ≡ written_by (plain event.entry) }
{
    match event {
        Event::Write(offset, value) => match Reg::of_offset_in(Profile::Adapter, offset) {
            Some(reg) => Some((reg, value)),
            None => None,
        },
        _ => None,
    }
}
