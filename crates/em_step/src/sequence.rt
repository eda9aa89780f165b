//! A frame as the FIFO keeps it: with its frame check sequence, or without.
ghost use Rattle.std.specs.Prelude.{◌≡◌, ◌≤◌, IfOk, IfErr, OnOk, OnErr, length, true};
ghost use Rattle.em_mem.specs.Memory as memory;
ghost use Rattle.em_mem.specs.OldOctets.{Keeps};
ghost use Rattle.em_rx.specs.Fifo.{after_arrival, HasRoom, shows};
ghost use Rattle.em_rx.specs.Frame.{stored_frame};
ghost use Rattle.em_rx.specs.Records.{frame_patch};
ghost use Rattle.em_rx.specs.RxUndo.{Frame};
ghost use Rattle.em_rx.specs.Undo.{Reverses};
ghost use Rattle.em_step.specs.Arrival.{with_sequence};

use em_crc::check_sequence;
use em_filter::CHECK_OCTETS;
use em_mem::OldOctets;
use em_rx::{Fifo, OldFrame, RxRefusal};
use std::alloc::{AllocError, Global};

/// Stores a frame as `Fifo::store` does, with its check sequence where that is kept.
#[inline(always)]
pub(crate) fn store_kept(
    alloc: Global,
    fifo: &mut Fifo,
    frame: &[u8],
    kept: bool,
    tagged: bool,
    old: &mut OldOctets,
) -> Result<OldFrame, RxRefusal>
    requires least { 60 ≤ length frame.now }
    requires most { length frame.now ≤ 16_380 }
    requires room { HasRoom (shows fifo.old) (length (stored_frame (with_sequence kept frame.now) tagged).octets) }
    ensures ok { OnOk result (shows fifo.new
        ≡ after_arrival (shows fifo.old) (stored_frame (with_sequence kept frame.now) tagged)) }
    ensures held { IfOk result (λ r. r.len ≡ length (stored_frame (with_sequence kept frame.now) tagged).octets) }
    ensures keeps { IfOk result (λ r. Keeps r.len old.old old.new) }
    ensures reverses { IfOk result (λ r. (m : memory.Cells) →
        Reverses fifo.old fifo.new m m (Frame (frame_patch r old.new))) }
    ensures refused { IfErr result (λ refusal. refusal ≡ RxRefusal.Memory) }
    ensures same { OnErr result (fifo.new ≡ fifo.old) }
    ensures kept { OnErr result (old.new ≡ old.old) }
{
    if kept {
        store_with_sequence(alloc, fifo, frame, tagged, old)
    } else {
        fifo.store(frame, tagged, old)
    }
}

/// Stores a frame with its check sequence. It stands by itself, so that the first profile's way stays short.
#[inline(never)]
fn store_with_sequence(
    alloc: Global,
    fifo: &mut Fifo,
    frame: &[u8],
    tagged: bool,
    old: &mut OldOctets,
) -> Result<OldFrame, RxRefusal>
    requires least { 60 ≤ length frame.now }
    requires most { length frame.now ≤ 16_380 }
    requires room { HasRoom (shows fifo.old) (length (stored_frame (with_sequence true frame.now) tagged).octets) }
    ensures ok { OnOk result (shows fifo.new
        ≡ after_arrival (shows fifo.old) (stored_frame (with_sequence true frame.now) tagged)) }
    ensures held { IfOk result (λ r. r.len ≡ length (stored_frame (with_sequence true frame.now) tagged).octets) }
    ensures keeps { IfOk result (λ r. Keeps r.len old.old old.new) }
    ensures reverses { IfOk result (λ r. (m : memory.Cells) →
        Reverses fifo.old fifo.new m m (Frame (frame_patch r old.new))) }
    ensures refused { IfErr result (λ refusal. refusal ≡ RxRefusal.Memory) }
    ensures same { OnErr result (fifo.new ≡ fifo.old) }
    ensures kept { OnErr result (old.new ≡ old.old) }
{
    let octets = with_sequence(alloc, frame)?;
    fifo.store(octets.as_slice(), tagged, old)
}

/// A frame, and its check sequence behind it.
#[inline(never)]
fn with_sequence(alloc: Global, frame: &[u8]) -> Result<Vec<u8>, AllocError>
    requires { length frame.now ≤ 16_380 }
    ensures { IfOk result (λ octets. octets.items ≡ with_sequence true frame.now) }
{
    let mut octets = Vec::with_capacity(alloc, frame.len() + CHECK_OCTETS)?;
    octets.extend_from_slice(frame)?;
    octets.extend_from_slice(&check_sequence(frame))?;
    Ok(octets)
}
