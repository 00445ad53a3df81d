//! Files, sinks and lists: those in memory, and the adapters over the host.
//!
//! There is nothing here but tests. What files and sinks of both kinds answer is told by tables of calls, one after
//! another, each with the answer that is wanted.
#![tactic(auto)]

#[cfg(test)]
mod files;
#[cfg(test)]
mod host_files;
#[cfg(test)]
mod host_sinks;
#[cfg(test)]
mod lists;
#[cfg(test)]
mod mem_files;
#[cfg(test)]
mod mem_sinks;
#[cfg(test)]
mod rooms;
#[cfg(test)]
mod sinks;
