//! Tests of stored hashes: what a field holds, and which passwords match it.

use super::{counts, want};
use crypt_core::fits::fits;
use crypt_core::password::Password;
use crypt_core::stored::StoredField;
use prims_core::meter::Meter;
use std::alloc::Global;
use std::process::Abort;
use std::test::Fail;

// Asserts whether a password matches a stored hash, or the message of the error, and how many digests the check takes.
// The check of a refused field does no work.
fn want_fit(
    rt: &impl Abort,
    alloc: Global,
    (word, stored): (&str, &str),
    wanted: Result<bool, &str>,
    digests: u128,
) -> Result<(), Fail> {
    let password = Password::new(word.as_bytes())?;
    let mut meter = Meter::new();
    let told = fits(alloc, &password, stored.as_bytes(), &mut meter);
    want(rt, told.map_err(|fault| fault.text()), wanted, stored);
    let work = counts(&meter);
    want(rt, work[0], digests, stored);
    want(rt, work == [0; 5], digests == 0, stored);
    Ok(())
}

// The hashes come from openssl-passwd(1), Drepper's specification and RFC 7914.
#[test]
fn passwords_that_match(rt: HostRuntime) -> Result<(), Fail> {
    let (md5crypt, scrypt) = (
        "$1$xxxxxxxx$UYCIxa628.9qXjpQCjM4a.",
        "$7$2/..../....$rNxJWVHNv/mCNcgE/f6/L4zO6Fos5c2uTzhyzoisI62",
    );
    let observed = "the minimum number is still observed";
    let long =
        "$1$aaaaaaaaaaaaaaaaaaaaaaaaaaaaaaaaaaaaaaaaaaaaaaaaaaaaaaaaaaaaaaaaaaaaaaaaaaaaaaaaaaaaaaaaaaaaaaaaaaaaaaaaaaaaaaaaaaaaaaaaaaaaaaaaaaaaaaaaaaaaaaaaaaaaaaaaaaaaaaaaaaaaaaaaaaaaaaaaaaaaaaaaaaaaaaaaaaaaaaaaaaaaaaaaaaaaaaaaaaaaaaaaaaaaaaaaaaaaaaaaaaaaaaaaaaaaaaaaaaaaaaaaaaaaaaaaaaaaaaaaaaaaaaaaaaaaaaaaaaaaaaaaaaaaaaaaaaaaaaaaaaaaaaaaaaaaaaaaaaaaaaaaaaaaaaaaaaaaaaaaaaaaaaaaaaaaaaaaaaaaaaaaaaaaaaaaaaaaaaaaaaa";
    for &(word, stored, wanted, digests) in &[
        ("password", md5crypt, Ok(true), 1002),
        ("Password", md5crypt, Ok(false), 1002),
        ("password", "$1$xxxxxxxx", Ok(false), 1002),
        ("", scrypt, Ok(true), 10),
        ("x", scrypt, Ok(false), 10),
        (
            observed,
            "$6$rounds=1000$roundstoolow$kUMsbe306n21p9R.FRkW3IGn.S9NPN0x50YhH1xhLsPuWGsUSklZt58jaTfF4ZEQpyUNGc0dqbpBYYBaHHrsX.",
            Ok(true),
            1004,
        ),
        (
            observed,
            "$6$rounds=10$roundstoolow$kUMsbe306n21p9R.FRkW3IGn.S9NPN0x50YhH1xhLsPuWGsUSklZt58jaTfF4ZEQpyUNGc0dqbpBYYBaHHrsX.",
            Ok(false),
            1004,
        ),
        ("x", long, Err("setting too long"), 0),
        ("x", "$1$a:b", Err("bad character"), 0),
        ("x", "$2b$10$x", Err("unknown scheme"), 0),
        ("x", "$5$rounds=0$ab", Err("bad rounds"), 0),
        ("x", "$7$A", Err("bad cost"), 0),
        ("x", "$7$./..../....", Err("scrypt range"), 0),
        ("x", "$7$J6..../....", Err("above ceiling"), 0),
        ("x", "$7$2/..../....a_b", Err("bad salt"), 0),
    ] {
        want_fit(&rt, rt.alloc(), (word, stored), wanted, digests)?;
    }
    Ok(())
}

#[test]
fn fields_of_password_files(rt: HostRuntime) {
    for &(field, wanted) in &[
        ("", "empty"),
        ("!", "locked"),
        ("!$1$a b", "locked"),
        ("*", "locked"),
        ("$1$xxxxxxxx$UYCIxa628.9qXjpQCjM4a.", "a hash"),
        ("$2b$10$x", "unknown scheme"),
    ] {
        let told = match StoredField::read(field.as_bytes()) {
            Ok(StoredField::Empty) => "empty",
            Ok(StoredField::Locked) => "locked",
            Ok(StoredField::Hash(_)) => "a hash",
            Err(fault) => fault.text(),
        };
        want(&rt, told, wanted, field);
    }
}
