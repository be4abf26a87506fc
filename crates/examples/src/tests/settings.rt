//! Tests of methods, passwords and settings: how they are read and made, and which setting replaces which.

use super::{padded, want};
use arrayvec::ArrayVec;
use crypt_core::made_salt::salt_of;
use crypt_core::method::Method;
use crypt_core::password::Password;
use crypt_core::setting::{Setting, TEXT_CAPACITY};
use run_core::job::Maker;
use std::process::Abort;
use std::test::Fail;

#[test]
fn methods(rt: HostRuntime) {
    for &(name, method) in &[
        ("md5crypt", Some(Method::Md5crypt)),
        ("md5", Some(Method::Md5crypt)),
        ("sha256crypt", Some(Method::Sha256crypt)),
        ("sha-256", Some(Method::Sha256crypt)),
        ("sha512crypt", Some(Method::Sha512crypt)),
        ("sha-512", Some(Method::Sha512crypt)),
        ("scrypt", Some(Method::Scrypt)),
        ("help", None),
        ("sha1", None),
    ] {
        want(&rt, Method::named(name.as_bytes()), method, name);
    }
}

// Asserts that a password is accepted and keeps its bytes, or is refused with this message.
fn want_password(rt: &impl Abort, bytes: &[u8], wanted: Option<&str>) {
    let fault = match Password::new(bytes) {
        Ok(password) => {
            want(rt, password.bytes(), bytes, "the bytes of a password");
            None
        }
        Err(fault) => Some(fault.text()),
    };
    want(rt, fault, wanted, "a password");
}

#[test]
fn passwords(rt: HostRuntime) -> Result<(), Fail> {
    for &(letter, count, wanted) in &[
        (b'a', 0, None),
        (b'a', 512, None),
        (b'a', 513, None),
        (b'a', 1024, None),
        (b'a', 1025, Some("password too long")),
        (0, 1, Some("password has a zero byte")),
        (0, 513, Some("password has a zero byte")),
        (0, 1025, Some("password too long")),
    ] {
        let bytes = padded(rt.alloc(), b"", letter, count, b"")?;
        want_password(&rt, bytes.as_slice(), wanted);
    }
    Ok(())
}

// Returns the canonical text of a setting, or the message of the error if there is no setting.
fn told(made: Result<Setting, &str>) -> ArrayVec<u8, TEXT_CAPACITY> {
    match made {
        Ok(setting) => setting.text(),
        Err(message) => {
            let mut text = ArrayVec::new();
            let _ = text.try_extend_from_slice(message.as_bytes());
            text
        }
    }
}

fn read(text: &[u8]) -> ArrayVec<u8, TEXT_CAPACITY> {
    told(Setting::read(text).map_err(|fault| fault.text()))
}

#[test]
fn settings_that_are_read(rt: HostRuntime) {
    for &(text, wanted) in &[
        ("$5$rounds=123456789012$ab", "$5$rounds=999999999$ab"),
        ("$6$rounds=999$", "$6$rounds=1000$"),
        ("$6$rounds=10$roundstoolow", "$6$rounds=1000$roundstoolow"),
        ("$5$saltstring", "$5$saltstring"),
        (
            "$6$rounds=10000$saltstringsaltstring",
            "$6$rounds=10000$saltstringsaltst",
        ),
        (
            "$6$rounds=5000$toolongsaltstring",
            "$6$rounds=5000$toolongsaltstrin",
        ),
        ("$1$abcdefghij$x", "$1$abcdefgh"),
        ("$1$xxxxxxxx$UYCIxa628.9qXjpQCjM4a.", "$1$xxxxxxxx"),
        ("$5$$", "$5$"),
        ("$5$rounds=1000$rounds=5", "$5$rounds=1000$rounds=5"),
        ("$5$rounds", "$5$rounds"),
        ("$1$", "$1$"),
        ("$5$rounds=0$ab", "bad rounds"),
        ("$5$rounds=$ab", "bad rounds"),
        ("$5$rounds=12", "bad rounds"),
        ("$2b$10$x", "unknown scheme"),
        ("", "unknown scheme"),
        ("$1$a:b", "bad character"),
        ("$2b$a b", "bad character"),
        ("$7$A", "bad cost"),
        ("$7$./..../....", "scrypt range"),
        ("$7$E/..../....", "scrypt range"),
        ("$7$J0..../....", "$7$J0..../...."),
        ("$7$J2..../....", "$7$J2..../...."),
        ("$7$J6..../....", "above ceiling"),
        ("$7$2/..../....a_b", "bad salt"),
        ("$7$zzzzzzzzzzz", "above ceiling"),
        ("$7$/zzzzz/....", "above ceiling"),
        ("$7$z/..../....", "scrypt range"),
        ("$7$.zzzzzzzzzz", "scrypt range"),
        ("$7$/...../....", "scrypt range"),
    ] {
        let told = read(text.as_bytes());
        want(&rt, told.as_slice(), wanted.as_bytes(), text);
    }
}

#[test]
fn what_a_setting_keeps(rt: HostRuntime) -> Result<(), Fail> {
    for &(text, method, salt) in &[
        ("$5$rounds", Method::Sha256crypt, "rounds"),
        ("$1$", Method::Md5crypt, ""),
        ("$5$rounds=1000$rounds=5", Method::Sha256crypt, "rounds=5"),
        (
            "$6$toolongsaltstring",
            Method::Sha512crypt,
            "toolongsaltstrin",
        ),
        ("$7$2/..../....NaCl$", Method::Scrypt, "NaCl"),
    ] {
        let setting = Setting::read(text.as_bytes())?;
        want(&rt, setting.method(), method, text);
        want(&rt, setting.salt(), salt.as_bytes(), text);
    }
    Ok(())
}

// Settings as long as the limit for a salt or for a whole setting, and settings of one byte more.
#[test]
fn long_settings(rt: HostRuntime) -> Result<(), Fail> {
    for &(front, letter, count, wanted) in &[
        ("$7$2/..../....", b'a', 86, None),
        ("$7$2/..../....", b'a', 87, Some("bad salt")),
        ("$1$", b'a', 381, None),
        ("$1$", b'a', 382, Some("setting too long")),
        ("", b'!', 385, Some("setting too long")),
        ("", b' ', 385, Some("setting too long")),
    ] {
        let text = padded(rt.alloc(), front.as_bytes(), letter, count, b"")?;
        let fault = Setting::read(text.as_slice()).err();
        want(&rt, fault.map(|fault| fault.text()), wanted, front);
    }
    Ok(())
}

#[test]
fn prefixes_of_scrypt(rt: HostRuntime) {
    let text = b"$7$C6..../....SodiumChloride";
    for length in 0..=text.len() {
        let prefix = &text[..length];
        let wanted = match length {
            0..=2 => b"unknown scheme".as_slice(),
            3..=13 => b"bad cost".as_slice(),
            _ => prefix,
        };
        assert_eq!(rt; read(prefix).as_slice(), wanted, "{length}");
    }
}

#[test]
fn prefixes_with_rounds(rt: HostRuntime) {
    let text = b"$6$rounds=1000$ab";
    for length in 0..=text.len() {
        let prefix = &text[..length];
        let wanted = match length {
            0..=2 => b"unknown scheme".as_slice(),
            10..=14 => b"bad rounds".as_slice(),
            _ => prefix,
        };
        assert_eq!(rt; read(prefix).as_slice(), wanted, "{length}");
    }
}

#[test]
fn settings_that_are_made(rt: HostRuntime) {
    for &(method, cost, salt, wanted) in &[
        (
            Method::Sha512crypt,
            0,
            "/0..............",
            "$6$/0..............",
        ),
        (Method::Sha512crypt, 10, "ab", "$6$rounds=1000$ab"),
        (Method::Md5crypt, 10, "ab", "$1$ab"),
        (Method::Md5crypt, 0, "123456789", "salt length"),
        (Method::Scrypt, 0, "ab", "$7$CU..../....ab"),
        (Method::Scrypt, 11, "ab", "$7$GU..../....ab"),
        (Method::Scrypt, 5, "ab", "cost"),
        (Method::Scrypt, 12, "ab", "cost"),
        (Method::Scrypt, 5, "a-b", "salt character"),
        (Method::Scrypt, 5, "", "salt length"),
    ] {
        let made = Setting::make(method, cost, salt.as_bytes());
        let told = told(made.map_err(|fault| fault.text()));
        want(&rt, told.as_slice(), wanted.as_bytes(), salt);
    }
}

// The number 129, which is 1 + 2 * 64, makes a salt that begins with the characters for 1 and 2, `/0`.
#[test]
fn salts_from_random_numbers(rt: HostRuntime) {
    let most = u64::MAX;
    for (numbers, length, wanted) in [
        ([129, 0, 0], 16, "/0.............."),
        ([most, most, most], 16, "zzzzzzzzzzzzzzzz"),
        ([most, most, most], 0, ""),
    ] {
        let salt = salt_of(numbers, length);
        want(&rt, salt.as_slice(), wanted.as_bytes(), wanted);
    }
}

// Asserts whether a maker needs random numbers for a salt, and which setting it makes, or the message of the error.
fn want_maker(
    rt: &impl Abort,
    method: Method,
    cost: u32,
    salt: Option<&[u8]>,
    draws: bool,
    wanted: &str,
) {
    let text = match Maker::new(method, cost, salt) {
        Ok(maker) => {
            want(rt, maker.draws(), draws, wanted);
            told(Ok(maker.setting([129, 0, 0])))
        }
        Err(fault) => told(Err(fault.text())),
    };
    want(rt, text.as_slice(), wanted.as_bytes(), wanted);
}

#[test]
fn makers(rt: HostRuntime) {
    let given: Option<&[u8]> = Some(b"xxxxxxxx");
    let md5 = "$1$/0......";
    let scrypt = "$7$CU..../..../0....................";
    let sha256 = "$5$rounds=10000$/0..............";
    want_maker(&rt, Method::Md5crypt, 0, given, false, "$1$xxxxxxxx");
    want_maker(&rt, Method::Md5crypt, 0, None, true, md5);
    want_maker(&rt, Method::Sha256crypt, 10000, None, true, sha256);
    want_maker(&rt, Method::Scrypt, 7, None, true, scrypt);
    want_maker(&rt, Method::Scrypt, 12, None, true, "cost");
    want_maker(&rt, Method::Scrypt, 12, given, false, "cost");
    want_maker(&rt, Method::Md5crypt, 0, Some(b""), false, "salt length");
}

// Returns whether a new hash with the setting `new` replaces a hash with the setting `old`.
fn is_replaced(old: &str, new: &str) -> Result<bool, Fail> {
    let setting = Setting::read(old.as_bytes())?;
    let other = Setting::read(new.as_bytes())?;
    Ok(setting.replaced_by(&other))
}

// Between settings of one method, the rounds or scrypt's `N * r * p` decide. The salt does not matter, nor whether the
// setting has `rounds=`.
#[test]
fn settings_that_replace_others(rt: HostRuntime) -> Result<(), Fail> {
    for &(old, new, wanted) in &[
        ("$1$a", "$1$b", false),
        ("$1$a", "$5$b", true),
        ("$6$rounds=999999999$a", "$1$b", true),
        ("$5$a", "$6$a", true),
        ("$5$a", "$5$rounds=5000$b", false),
        ("$5$rounds=5000$a", "$5$b", false),
        ("$5$a", "$5$rounds=5001$a", true),
        ("$5$rounds=5001$a", "$5$a", false),
        ("$7$86....E....NaCl", "$7$C6..../....a", false),
        ("$7$C6..../....a", "$7$CU..../....a", true),
        ("$7$CU..../....a", "$7$C6..../....a", false),
        ("$7$CU..../....a", "$6$a", true),
    ] {
        want(&rt, is_replaced(old, new)?, wanted, old);
    }
    Ok(())
}
