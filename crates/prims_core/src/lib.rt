//! The primitives under mkpasswd's schemes: crypt's alphabet, the work meter, the digests that it counts, the
//! conversion of numbers to bytes and back, scrypt's block mixing, and the memory for it.
#![tactic(auto)]

pub mod alphabet;
pub mod counted;
mod diagonals;
pub mod meter;
pub mod mix;
pub mod rows;
pub mod salsa;
pub mod scratch;
pub mod table;
pub mod words;
