//! Watchers of a replay: each is shown what was decided of each line, until it leaves, and reports in the end.
#![tactic(auto)]

mod boxed;
mod counting;
mod refused;
mod reports;
mod show;
mod status;
mod stay;
mod telling;
mod watcher;

pub use refused::RefusedWatch;
pub use reports::push_reports;
pub use show::show_all;
pub use status::StatusWatch;
pub use stay::Stay;
pub use telling::show_and_report;
pub use watcher::Watcher;

#[cfg(test)]
mod tests;
