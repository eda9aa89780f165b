//! A journal of an adapter's events: it performs them, and takes the newest back, within a budget.
#![tactic(auto)]

mod acts;
mod copies;
pub mod laws;
mod machine;
mod needs;
mod records;
mod refusal;
mod rings;
mod settings;

pub use acts::Acts;
pub use machine::{LEAST_BUDGET, MOST_BUDGET, Machine};
pub use refusal::{Empty, JournalRefusal};
pub use settings::{Settings, SettingsRefusal};
