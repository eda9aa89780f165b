//! A queue of packets that serves again.
ghost use Rattle.std.specs.Prelude.{◌≡◌, []};

use std::alloc::Global;
use std::collections::VecDeque;
use std::mem;

/// Takes the queue that is kept for the next call of a driver, without the packets that an earlier
/// call left in it. It has the room that it had, so that a call seldom takes memory for its queue.
pub fn take_empty(alloc: Global, spare: &mut VecDeque<Vec<u8>>) -> VecDeque<Vec<u8>>
    ensures { result.items ≡ [] }
{
    // A new queue takes no memory.
    let mut packets = mem::replace(spare, VecDeque::new(alloc));
    packets.clear();
    packets
}

/// Takes the queue as `take_empty` does, and beside it a packet without octets, in the memory of one
/// that an earlier call left, where there is one.
pub fn take_with_packet(
    alloc: Global,
    spare: &mut VecDeque<Vec<u8>>,
) -> (VecDeque<Vec<u8>>, Vec<u8>)
    ensures queue { result.0.items ≡ [] }
    ensures packet { result.1.items ≡ [] }
{
    let packet = match spare.pop_front() {
        Some(mut left) => {
            left.clear();
            left
        }
        None => Vec::new(alloc),
    };
    (take_empty(alloc, spare), packet)
}
