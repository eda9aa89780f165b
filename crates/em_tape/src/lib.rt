//! The lines of a debugging session, with a place in it: one goes to any event since the start, back and
//! forward again, and each time finds the same.
//!
//! A [`Tape`] keeps the lines that were typed or loaded, and how many events stand after each. Steps back go through
//! the machine's journal as far as it reaches. Forward again, lines that did one event each are performed again from
//! where the place is. Every other way leads over a new machine, on which all lines are performed again without their
//! texts. So no place is out of reach, and none is lost where memory is refused on the way.
#![tactic(auto)]

mod again;
mod did;
mod kind;
mod known;
mod laws;
mod lines;
mod playing;
mod tape;
mod text;

pub use em_named::{Did, Name};
pub use laws::{
    a_cut_shows_the_same, a_named_event_led, a_place_shows_the_same, an_event_names_one_state,
};
pub use tape::{MOST_LINES, MOST_OCTETS, Tape};
pub use text::Text;
