//! The rules that nginx's directives must keep, and the first that a text breaks.
#![tactic(auto)]

pub mod argument;
mod check;
pub mod earlier;
pub mod fault;
pub mod kind;
pub mod names;
pub mod numbers;
pub mod place;
mod rules;
pub mod walk;
pub mod words;

pub use check::check_directives;
pub use fault::ConfigFault;
pub use kind::{Context, Kind};
pub use place::{Origins, Spot};
pub use rules::{
    MAX_LIMITS, MAX_LOCATIONS, MAX_SERVERS, MAX_ZONES, is_backup, is_primary, location_name,
};
pub use walk::Walk;

#[cfg(test)]
mod tests;
