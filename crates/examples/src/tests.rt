//! The tests by topic, from the alphabet up to whole commands, and helpers that they share.
//!
//! Where a test asserts that numbers of its own table are in a range, the assertion lets the checker prove the
//! precondition of the next call.

mod alphabet;
mod commands;
mod costs;
mod derivation;
mod digests;
mod errors;
mod hashes;
mod lines;
mod mixing;
mod settings;
mod stored;

use prims_core::meter::Meter;
use std::alloc::{AllocError, Global};
use std::fmt::Debug;
use std::process::Abort;

// Asserts that `told`, which a call returned, equals the expected value, `wanted`. `what` names the case in the message
// of a failure.
fn want<T: Debug + Drop + PartialEq>(rt: &impl Abort, told: T, wanted: T, what: &str) {
    assert_eq!(rt; told, wanted, "{what}");
}

// Returns the five counts of a meter: digests, bytes digested, mixings, and bytes of table and scratch memory.
fn counts(meter: &Meter) -> [u128; 5] {
    [
        meter.digests(),
        meter.bytes(),
        meter.mixes(),
        meter.table(),
        meter.scratch(),
    ]
}

// Returns `front`, followed by `count` times `letter`, followed by `back`.
fn padded(
    alloc: Global,
    front: &[u8],
    letter: u8,
    count: usize,
    back: &[u8],
) -> Result<Vec<u8>, AllocError> {
    let mut text = Vec::from_slice(alloc, front)?;
    for _ in 0..count {
        text.push(letter)?;
    }
    text.extend_from_slice(back)?;
    Ok(text)
}
