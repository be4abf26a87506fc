//! Tests of the greatest cost and work of a hash, which are known before the hash is made.

use super::want;
use crypt_core::setting::Setting;
use crypt_core::work::{bound, cost};
use std::test::Fail;

#[test]
fn bounds(rt: HostRuntime) -> Result<(), Fail> {
    for &(text, length, wanted) in &[
        ("$1$xxxxxxxx", 0, [1002, 21347, 0, 0, 0]),
        ("$1$xxxxxxxx", 8, [1002, 36239, 0, 0, 0]),
        ("$1$xxxxxxxx", 512, [1002, 974189, 0, 0, 0]),
        ("$1$xxxxxxxx", 1024, [1002, 1927022, 0, 0, 0]),
        ("$5$", 0, [5004, 160000, 0, 0, 0]),
        ("$5$saltstring", 12, [5004, 307760, 0, 0, 0]),
        (
            "$6$rounds=999999999$saltstringsaltst",
            512,
            [1000000003, 1025524081584, 0, 0, 0],
        ),
        (
            "$6$rounds=999999999$saltstringsaltst",
            1024,
            [1000000003, 1976382017456, 0, 0, 0],
        ),
        ("$7$2/..../....", 0, [10, 948, 32, 2048, 384]),
        ("$7$2/..../....", 64, [10, 948, 32, 2048, 384]),
        ("$7$2/..../....", 65, [11, 1013, 32, 2048, 384]),
        ("$7$2/..../....", 1024, [11, 1972, 32, 2048, 384]),
        (
            "$7$86....E....NaCl",
            8,
            [1026, 102564, 32768, 1048576, 18432],
        ),
        (
            "$7$C6..../....SodiumChloride",
            13,
            [66, 6884, 32768, 16777216, 3072],
        ),
    ] {
        // The prover needs this bound, which `bound` requires.
        assert!(rt; length <= 1024);
        let work = bound(&Setting::read(text.as_bytes())?, length);
        let told = [
            work.digests,
            work.bytes,
            work.mixes,
            work.table,
            work.scratch,
        ];
        want(&rt, told, wanted, text);
    }
    Ok(())
}

// The number of digests does not depend on the length of the password. The rounds are clamped to 999999999, and
// SHA-crypt makes four digests before the first round.
#[test]
fn digests_of_many_rounds(rt: HostRuntime) -> Result<(), Fail> {
    let setting = Setting::read(b"$5$rounds=123456789012$ab")?;
    for length in 0..1025 {
        assert_eq!(rt; bound(&setting, length).digests, 1000000003, "{length}");
    }
    Ok(())
}

#[test]
fn costs(rt: HostRuntime) -> Result<(), Fail> {
    for &(text, length, wanted) in &[
        ("$1$xxxxxxxx", 8, 36239),
        ("$5$saltstring", 12, 307760),
        ("$7$2/..../....", 0, 5044),
        ("$7$86....E....NaCl", 8, 33656996),
        ("$7$C6..../....SodiumChloride", 13, 33561316),
    ] {
        // The prover needs this bound, which `cost` requires.
        assert!(rt; length <= 1024);
        let setting = Setting::read(text.as_bytes())?;
        want(&rt, cost(&setting, length), wanted, text);
    }
    Ok(())
}
