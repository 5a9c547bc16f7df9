//! What a zone's object is: a state laid out in words, changed by calls whose history decides all.
#![tactic(auto)]

mod calls;
mod journal;
mod object;
pub mod theorems;
mod view;

pub use calls::apply_uncounted;
pub use journal::Journal;
pub use object::{Entry, ZoneObject};
pub use view::ZoneView;
