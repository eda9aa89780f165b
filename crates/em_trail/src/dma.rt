//! What an engine's step has to do with guest memory.
ghost use Rattle.std.specs.Prelude.{◌≡◌};
ghost use Rattle.em_step.specs.Event.{plain};
ghost use Rattle.em_trail.specs.Dma.{dma_of, no_dma};

use em_journal::Machine;
use em_mem::Range;
use em_step::Event;

/// Where an engine's step finds its descriptor, and the octets of the buffer that it writes or reads.
#[derive(Clone, Copy)]
pub(crate) struct Dma {
    /// The descriptor's address.
    pub descriptor: u64,
    /// The buffer's octets. Of a descriptor of length 0 they are none.
    pub buffer: Range,
}

impl Dma {
    /// That of an event that is no step of an engine, or an idle one.
    pub(crate) fn none() -> Dma
        ensures { result ≡ no_dma }
    {
        Dma {
            descriptor: 0,
            buffer: Range::none(),
        }
    }
}

/// What the machine's next event has to do with guest memory, where it is a step of an engine that is not refused.
#[inline(always)]
pub(crate) fn dma_of(machine: &Machine, event: Event<'_>) -> Dma
    ensures { result ≡ dma_of machine.now.present (plain event.entry) }
{
    match event {
        Event::RxStep => {
            let needs = machine.needs_rx();
            Dma {
                descriptor: needs.reads[0].at,
                buffer: needs.writes[0],
            }
        }
        Event::TxStep => {
            let needs = machine.needs_tx();
            Dma {
                descriptor: needs.reads[0].at,
                buffer: needs.reads[1],
            }
        }
        _ => Dma::none(),
    }
}
