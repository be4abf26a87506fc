//! Tests of the digests and of the meter that counts them.

use super::{counts, want};
use prims_core::counted::{Counted, CountedMd5, CountedSha256, CountedSha512};
use prims_core::meter::Meter;
use std::alloc::Global;
use std::process::Abort;
use std::test::Fail;

#[test]
fn a_new_meter(rt: HostRuntime) {
    want(&rt, counts(&Meter::new()), [0; 5], "a new meter");
}

// Asserts the digest of a message that is fed in two pieces, and that the meter counts one digest and the message's
// bytes.
fn want_digest<C: Counted>(
    rt: &impl Abort,
    alloc: Global,
    (first, second): (&[u8], &[u8]),
    wanted: &str,
) -> Result<(), Fail> {
    // The prover needs these bounds, because `feed` requires that the meter can count the bytes.
    assert!(rt; first.len() <= 3 && second.len() <= 3);
    let mut meter = Meter::new();
    let mut running = C::begin();
    running.feed(&mut meter, first);
    running.feed(&mut meter, second);
    let digest = hex::encode(alloc, running.finish(&mut meter).as_slice())?;
    let len = first.len() as u128 + second.len() as u128;
    want(rt, digest.as_str(), wanted, "a digest");
    want(rt, counts(&meter), [1, len, 0, 0, 0], wanted);
    Ok(())
}

// The expected digests come from RFC 1321, section A.5, and from the examples of FIPS 180.
#[test]
fn digests_of_the_standards(rt: HostRuntime) -> Result<(), Fail> {
    let alloc = rt.alloc();
    let empty = "d41d8cd98f00b204e9800998ecf8427e";
    want_digest::<CountedMd5>(&rt, alloc, (b"", b""), empty)?;
    let md5 = "900150983cd24fb0d6963f7d28e17f72";
    want_digest::<CountedMd5>(&rt, alloc, (b"ab", b"c"), md5)?;
    let sha256 = "ba7816bf8f01cfea414140de5dae2223b00361a396177a9cb410ff61f20015ad";
    want_digest::<CountedSha256>(&rt, alloc, (b"a", b"bc"), sha256)?;
    let sha512 = "ddaf35a193617abacc417349ae20413112e6fa4e89a97ea20a9eeee64b55d39a\
        2192992a274fc1a836ba3c23a3feebbd454d4423643ce80e2a9ac94fa54ca49f";
    want_digest::<CountedSha512>(&rt, alloc, (b"abc", b""), sha512)
}

// A meter adds up all work, and says how much of it was done after a reading.
#[test]
fn work_since_a_reading(rt: HostRuntime) {
    let mut meter = Meter::new();
    let _ = CountedMd5::begin().finish(&mut meter);
    let reading = meter.reading();
    let mut running = CountedSha256::begin();
    running.feed(&mut meter, b"abc");
    let _ = running.finish(&mut meter);
    let work = meter.work_since(&reading);
    let since = (work.digests, work.bytes, work.mixes);
    want(&rt, since, (1, 3, 0), "since then");
    want(&rt, counts(&meter), [2, 3, 0, 0, 0], "in all");
}
