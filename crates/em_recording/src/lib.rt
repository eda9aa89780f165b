//! What the events of a machine were and changed, as data, and as the JSON of a recording.
//! [docs/traces.md](../../../docs/traces.md) has the format.
//!
//! From what a machine showed at the start and what its events changed, what it showed after each event can be rebuilt,
//! forwards and backwards.
#![tactic(auto)]

mod copied;
mod effects;
mod event_text;
mod gathered;
mod laws;
mod recorded;
mod sending;
mod start;
mod stored;
mod was;

pub use effects::record_of;
pub use event_text::write_event;
pub use laws::{a_profile_stays, newest_records_rebuild, records_rebuild};
pub use recorded::{GatheredStep, OctetStep, Recorded, RegisterStep, Step};
pub use start::{write_settings, write_start};
pub use stored::newest_frame;
