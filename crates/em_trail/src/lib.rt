//! A machine that knows what each event of its journal was, and who asked for it.
#![tactic(auto)]

mod acts;
mod dma;
mod note;
mod traced;

pub use note::{Kind, Note};
pub use traced::Traced;
