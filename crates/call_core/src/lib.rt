//! The calls that C (`crypt_c`) and web pages (`crypt_web`) share. They read their arguments, hash, and return a
//! report. scrypt gets its memory from the heap, or the caller lends it.
//!
//! `crypt_c` and `crypt_web` are static libraries, on which no crate can depend, so the calls that both need are in
//! this crate. A call that can hash takes a new meter, which counts all its hashing, and reports everything that the
//! meter counted. So the report shows that the call hashes nothing above the budget, nothing for an `out` that is too
//! small, and nothing if it refuses an argument. There is one exception: a login that can't check the stored hash makes
//! a dummy hash. tests/program/test_sources.py checks that the calls make no other meter.
#![tactic(auto)]

pub mod audit;
pub mod bound;
mod budget;
pub mod hash;
pub mod limit;
pub mod login;
pub mod message;
pub mod name;
pub mod need;
pub mod new_hash;
mod reading;
pub mod reason;
pub mod rehash;
pub mod report;
pub mod setting;
pub mod verify;
