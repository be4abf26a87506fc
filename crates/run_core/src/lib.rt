//! The runs of mkpasswd: hash one password; hash, check or audit the lines of an input; list the methods. A run works
//! with whatever reader, writers, random number generator and meter its caller passes.
#![tactic(auto)]

mod answer;
mod audit;
pub mod device;
pub mod fault;
pub mod job;
pub mod line;
pub mod lines;
pub mod methods;
pub mod one;
mod reader;
pub mod tally;
#[cfg(test)]
mod test_devices;
#[cfg(test)]
mod tests;
pub mod transfer;
