//! What a register held before the newest event.
ghost use Rattle.std.specs.Prelude.{◌≡◌};
ghost use Rattle.em_warnings.specs.Before.{value_before};

use em_journal::Machine;
use em_regs::Reg;
use em_watch::{Sight, Watch, seen_back};

/// What a register held before the newest event; none where no step back leads there.
pub(crate) fn value_before(machine: &Machine, reg: Reg) -> Option<u32>
    ensures { result ≡ value_before machine.now reg }
{
    match seen_back(machine, Watch::Register(reg), 1) {
        Some(Sight::Value(value)) => Some(value),
        _ => None,
    }
}
