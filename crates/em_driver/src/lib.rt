//! A polled driver of the adapter, one access at a time.
#![tactic(auto)]

mod bus;
mod counting;
mod descriptor;
mod device;
mod driver;
mod laws;
mod layout;
mod link;
mod machine;
mod outcome;
mod packet;
mod receive;
mod set;
mod start;
mod start_access;
mod start_parts;
mod stats;
mod taking;
mod transmit;
mod turns;

pub use bus::Bus;
pub use device::IxyDevice;
pub use driver::E1000;
pub use em_turn::{Frame, PlanRefused, Turn};
pub use laws::{
    a_call_happens, a_call_is_a_run, a_device_that_is_off_rests, a_fed_call_is_played,
    answers_are_put_otherwise, calls_tell_of_memory, one_event_of_others, packets_in_order,
    steps_back_start_again,
};
pub use layout::Layout;
pub use outcome::{Batch, Cause, StartRefused, Stopped};
pub use stats::DeviceStats;
pub use turns::Turns;
