//! Tests of the zones beside plain steps over lists, on calls that are generated from fixed seeds.
#![tactic(auto)]

#[cfg(test)]
mod conn_calls;
#[cfg(test)]
mod conn_plain;
#[cfg(test)]
mod conn_rows;
#[cfg(test)]
mod conn_tests;
#[cfg(test)]
mod draws;
#[cfg(test)]
mod peer_calls;
#[cfg(test)]
mod peer_plain;
#[cfg(test)]
mod peer_rows;
#[cfg(test)]
mod peer_tests;
#[cfg(test)]
mod plain_slab;
#[cfg(test)]
mod reader;
#[cfg(test)]
mod req_plain;
#[cfg(test)]
mod req_tests;
