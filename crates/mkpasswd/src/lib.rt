//! mkpasswd hashes passwords with the schemes of crypt(5), one at a time or line by line, and checks and audits lines
//! with stored hashes. It makes a plan from the arguments and runs it with any devices, generator and meter.
#![tactic(auto)]

pub mod command;
pub mod fault;
pub mod options;
pub mod plan;

pub use run_core::{device, line, lines, methods, one, tally};
