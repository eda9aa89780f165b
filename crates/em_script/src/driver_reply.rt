//! A call of a driver that was made.

use crate::driver_answer::DriverAnswer;

/// What the turns of a plan came to: so many were performed and so many refused, and whether memory
/// was refused to one.
#[derive(Clone, Copy)]
pub struct PlanCounts {
    pub performed: u32,
    pub refused: u32,
    pub starved: bool,
}

/// What a driver did on a line: so many events, what it answered, and the counts of the plan, where
/// one was set.
#[derive(Drop)]
pub struct DriverReply {
    pub events: u32,
    pub answer: DriverAnswer,
    pub plan: Option<PlanCounts>,
}
