//! The lines of the script language, read into data: what a line says, apart from what is then done
//! with a machine and printed. [docs/language.md](../../../docs/language.md) has every line.
//!
//! A line's words stand between spaces, tabs and carriage returns. Its first word is its name, and
//! there is a function here for the form of each: the words behind the name are read where they
//! stand. A line without a word, or whose first word begins with `#`, says nothing.
//!
//! [`Line`] reads a whole line once, with what may stand behind it: the answer that it expects, where it
//! comes from, and a comment. em_bench takes lines without these; it reads by the same forms.
//!
//! Memory is taken only for the octets that a line brings and for a plan.
#![tactic(auto)]

mod arguments;
mod back_count;
mod command;
mod digits;
mod driver_call;
mod form;
mod frame;
mod grammar;
mod is_read;
mod line;
mod look;
mod parts;
mod peek_len;
mod plan;
mod request;
mod request_name;
mod said;
mod spare;
mod turn_word;

pub use back_count::{BackCount, MOST_BACK};
pub use command::Command;
pub use digits::bare;
pub use driver_call::DriverCall;
pub use form::{LineForm, accessed, command_of, form_of};
pub use grammar::{
    alone, arrive_form, back_form, is_comment, link_form, peek_form, poke_form, read_form,
    turns_form, write_form,
};
pub use is_read::is_line;
pub use line::Line;
pub use look::{LOOKS, Look};
pub use parts::{Parts, parts_of};
pub use peek_len::{MOST_PEEK, PeekLen};
pub use plan::{PlanWords, plan_of};
pub use request::{Request, request_form};
pub use request_name::RequestName;
pub use said::Said;
pub use spare::take_empty;
