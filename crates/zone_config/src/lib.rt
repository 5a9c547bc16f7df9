//! The configuration that nginx's directives give to the zones, with inheritance done, or its first fault.
#![tactic(auto)]

mod build;
pub mod config;
pub mod data;
mod names;
mod outline;

pub use config::config_of;
pub use config_rules::ConfigFault;
pub use data::{
    Config, ConnData, ConnLimit, Level, MethodData, PeerData, ReqData, ReqLimit, ServerData,
    Upstream, ZoneSpec,
};

#[cfg(test)]
mod tests;
