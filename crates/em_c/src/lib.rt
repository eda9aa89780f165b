//! The model as a library for C: calls over a handle that holds a machine, or none.
//!
//! Each call gives a number: 0, or that of the refusal. What a call tells goes through a pointer. A refusal changes
//! nothing: neither the machine, nor what a pointer points to. Of the calls that are several events, those before the
//! refused one stay, and how many they were is told.
#![tactic(auto)]

mod all_registers;
mod back;
mod captured;
mod copies;
mod difference;
mod differences;
mod entry;
mod fields;
mod fifo;
mod handle;
mod kept;
mod let_go;
mod line;
mod making;
mod memory;
mod names;
mod next;
mod note;
mod notes;
mod parts;
mod pcap;
mod profile;
mod ranges;
mod reason;
mod refusal_text;
mod refused;
mod registers;
mod rings;
mod room;
mod rule;
mod run;
mod sealed;
mod sealed_frames;
mod sent;
mod sized;
mod stored;
mod sync;
mod sync_range;
mod tagged;
mod text;
mod texts;
mod told;
mod warning;
mod warnings;
mod watch;
mod why;
mod wire;

pub use all_registers::{EmRegister, em_registers};
pub use back::{em_back, em_can_go_back};
pub use captured::EmPcapFrame;
pub use copies::em_copy;
pub use differences::{EmDifference, em_differences};
pub use entry::{EmEntry, em_ring_entry};
pub use fields::{EmField, em_field, em_value_text};
pub use fifo::{EmFifo, em_fifo, em_fifo_frame, em_fifo_room, em_gathered};
pub use handle::EmMachine;
pub use kept::{
    kept_arrive, kept_back, kept_head, kept_poke, kept_read, kept_rx_step, kept_set_link,
    kept_tx_step, kept_write,
};
pub use let_go::em_let_go;
pub use making::{
    em_free, em_make, em_make_as, em_make_as_with_eeprom, em_make_at, em_make_at_with_eeprom,
    em_make_with_eeprom,
};
pub use memory::{em_memory_base, em_memory_size, em_peek, em_poke};
pub use names::{em_find, em_name};
pub use next::em_wire_next;
pub use note::EmNote;
pub use notes::{em_event, em_tag};
pub use pcap::{EmPcap, em_pcap_close, em_pcap_fault, em_pcap_next, em_pcap_of};
pub use profile::em_profile;
pub use ranges::{EmRange, em_ring_needs, em_written};
pub use reason::EmReason;
pub use refusal_text::em_refusal;
pub use registers::{em_look, em_read, em_write};
pub use rings::{EmDescriptor, EmRingSetup, em_ring, em_ring_descriptor};
pub use run::{em_run_rx, em_run_tx};
pub use sent::{capture_head, capture_record};
pub use sized::{em_read_sized, em_write_sized};
pub use stored::{em_load, em_store};
pub use sync::{em_sync_in, em_sync_out};
pub use sync_range::{em_sync_in_range, em_sync_out_range};
pub use text::Text;
pub use texts::{em_effect, em_fifo_text, em_ring_text};
pub use warning::EmWarning;
pub use warnings::em_warnings;
pub use watch::{EmChange, EmWatch, em_last_change};
pub use why::em_why;
pub use wire::{
    em_arrive, em_line, em_loops, em_rx_step, em_set_link, em_tx_step, em_wire_count, em_wire_frame,
};
