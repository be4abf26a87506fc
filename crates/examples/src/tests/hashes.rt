//! Tests of hashes, and of the counts of their work as the steps of the standards require it: digests, bytes digested,
//! mixings, and bytes of table and scratch memory.

use super::{counts, want};
use crypt_core::hash::{HashFault, hash};
use crypt_core::md5crypt::md5crypt;
use crypt_core::memory::Lent;
use crypt_core::method::Method;
use crypt_core::need::Need;
use crypt_core::pack::pack;
use crypt_core::password::Password;
use crypt_core::setting::Setting;
use crypt_core::shacrypt::shacrypt;
use crypt_core::stored::StoredHash;
use prims_core::counted::{CountedSha256, CountedSha512};
use prims_core::meter::Meter;
use std::process::Abort;
use std::test::Fail;

// Each digest consists of the bytes 0, 1, 2 and so on, or of zeros. The expected characters come from a Python program.
#[test]
fn packed_digests(rt: HostRuntime) -> Result<(), Fail> {
    for &(method, length, step, wanted) in &[
        (Method::Md5crypt, 16, 1, "AM..BQE.CUU.DYk.3c./9."),
        (Method::Md5crypt, 16, 0, "......................"),
        (
            Method::Sha256crypt,
            32,
            1,
            "Ic..92E30M/1Lok.CE.43Yl1O.V/FQk46kV2RAF0Sw/",
        ),
        (
            Method::Sha512crypt,
            64,
            1,
            "eI/./gW3L6.9hUl.2sG4OIk9kgV/5215RUUAnsF08En5UgEBq201BQX6Xs.CtEm1EcH7a2lCwQW2Ho18dEVDz.",
        ),
        (
            Method::Scrypt,
            32,
            1,
            ".2U.1EE/4Q.07ck0AoU1D.F2GA/3JMl3MYV4PkF5Sw/",
        ),
    ] {
        let mut digest = Vec::new(rt.alloc());
        for n in 0..length as u8 {
            digest.push(n.wrapping_mul(step))?;
        }
        assert!(rt; digest.len() == length);
        let known = matches!(
            (method, length),
            (Method::Md5crypt, 16)
                | (Method::Sha256crypt | Method::Scrypt, 32)
                | (Method::Sha512crypt, 64)
        );
        assert!(rt; known);
        let text = pack(method, digest.as_slice());
        want(&rt, text.as_slice(), wanted.as_bytes(), wanted);
    }
    Ok(())
}

// The hashes come from openssl-passwd(1), Drepper's specification and RFC 7914's vectors, and the last one from
// Python's `hashlib`. The counts of SHA-crypt's work that depend on a digest come from a Python program.
#[test]
fn hashes(rt: HostRuntime) -> Result<(), Fail> {
    for &(setting, password, wanted, work) in &[
        (
            "$1$xxxxxxxx",
            "password",
            "$1$xxxxxxxx$UYCIxa628.9qXjpQCjM4a.",
            [1002, 36239, 0, 0, 0],
        ),
        (
            "$5$saltstring",
            "Hello world!",
            "$5$saltstring$5B8vYYiY.CVt1RlTTf8KbXBH3hsxY/GNooZaBBGWEc5",
            [5004, 307620, 0, 0, 0],
        ),
        (
            "$6$rounds=10000$saltstringsaltstring",
            "Hello world!",
            "$6$rounds=10000$saltstringsaltst$OW1/O6BYHV6BcXZu8QVeXbDWra3Oeqh0sbHbbMCVNSnCM/UrjmM0Dp8vOuZeHBy/YTBmSK6H9qs/y3RnOaw5v.",
            [10004, 971580, 0, 0, 0],
        ),
        (
            "$6$rounds=5000$toolongsaltstring",
            "This is just a test",
            "$6$rounds=5000$toolongsaltstrin$lQ8jolhgVRVhY4b5pZKaysCLi0QBxGoNeKQzQ3glMhwllF7oGDZxUhx1yxdYcz/e1JSbq3y6JMxxl8audkUEm0",
            [5004, 553274, 0, 0, 0],
        ),
        (
            "$6$rounds=10$roundstoolow",
            "the minimum number is still observed",
            "$6$rounds=1000$roundstoolow$kUMsbe306n21p9R.FRkW3IGn.S9NPN0x50YhH1xhLsPuWGsUSklZt58jaTfF4ZEQpyUNGc0dqbpBYYBaHHrsX.",
            [1004, 142068, 0, 0, 0],
        ),
        (
            "$7$2/..../....",
            "",
            "$7$2/..../....$rNxJWVHNv/mCNcgE/f6/L4zO6Fos5c2uTzhyzoisI62",
            [10, 948, 32, 2048, 384],
        ),
        (
            "$7$86....E....NaCl",
            "password",
            "$7$86....E....NaCl$xffjQo7Bm/.SKRS4B2EuynbOLjAmXU5AbDbRXhoBl64",
            [1026, 102564, 32768, 1048576, 18432],
        ),
        (
            "$7$C6..../....SodiumChloride",
            "pleaseletmein",
            "$7$C6..../....SodiumChloride$kBGj9fHznVYFQMEn/qDCfrDevf9YDtcDdKvEqHJLV8D",
            [66, 6884, 32768, 16777216, 3072],
        ),
        (
            "$7$2/..../....",
            "aaaaaaaaaaaaaaaaaaaaaaaaaaaaaaaaaaaaaaaaaaaaaaaaaaaaaaaaaaaaaaaaa",
            "$7$2/..../....$pWNwo7oTCNG/Z4uq.MZTSTft0yHCfZpYFT4HyVyagB3",
            [11, 1013, 32, 2048, 384],
        ),
    ] {
        let setting = Setting::read(setting.as_bytes())?;
        let password = Password::new(password.as_bytes())?;
        let mut meter = Meter::new();
        let hashed = hash(rt.alloc(), &password, &setting, &mut meter)?;
        want(&rt, hashed.text(), wanted.as_bytes(), wanted);
        want(&rt, counts(&meter), work, wanted);
    }
    Ok(())
}

// Checks passwords in lent memory. First it is exactly as much as the stored hash needs, and filled with ones, as lent
// memory need not hold zeros. Then it is a word or a byte less: scrypt lacks memory, and md5crypt needs none.
#[test]
fn hashes_in_lent_memory(rt: HostRuntime) -> Result<(), Fail> {
    let alloc = rt.alloc();
    for &(password, stored, words, bytes, work) in &[
        (
            "password",
            "$1$xxxxxxxx$UYCIxa628.9qXjpQCjM4a.",
            0,
            0,
            [1002, 36239, 0, 0, 0],
        ),
        (
            "",
            "$7$2/..../....$rNxJWVHNv/mCNcgE/f6/L4zO6Fos5c2uTzhyzoisI62",
            576,
            128,
            [10, 948, 32, 2048, 384],
        ),
        (
            "password",
            "$7$86....E....NaCl$xffjQo7Bm/.SKRS4B2EuynbOLjAmXU5AbDbRXhoBl64",
            262_656,
            16_384,
            [1026, 102_564, 32_768, 1_048_576, 18_432],
        ),
    ] {
        let stored = StoredHash::read(stored.as_bytes())?;
        let password = Password::new(password.as_bytes())?;
        let need = stored.setting().scheme().need();
        want(&rt, need, Need { words, bytes }, "memory");
        let mut words = vec![in alloc; 0xffff_ffff; need.words]?;
        let mut bytes = vec![in alloc; 0xff; need.bytes]?;
        let mut meter = Meter::new();
        let mut lent = Lent::new(&mut words, &mut bytes);
        let is_match = stored.matches(&mut lent, &password, &mut meter);
        want(&rt, is_match, Ok(true), "the password");
        want(&rt, counts(&meter), work, "work");
        let another = Password::new(b"another")?;
        let is_match = stored.matches(&mut lent, &another, &mut Meter::new());
        want(&rt, is_match, Ok(false), "another password");
        // A check in too little memory returns this.
        let wanted_in_too_little = if need.words == 0 {
            Ok(true)
        } else {
            Err(HashFault::OutOfMemory)
        };
        let _word = words.pop();
        let mut lent = Lent::new(&mut words, &mut bytes);
        let is_match = stored.matches(&mut lent, &password, &mut Meter::new());
        want(&rt, is_match, wanted_in_too_little, "a word less");
        words.push(0)?;
        let _byte = bytes.pop();
        let mut lent = Lent::new(&mut words, &mut bytes);
        let is_match = stored.matches(&mut lent, &password, &mut Meter::new());
        want(&rt, is_match, wanted_in_too_little, "a byte less");
    }
    Ok(())
}

// Asserts the text of a digest, which is the end of a hash that `hashes` tests, and its work.
fn want_packed(rt: &impl Abort, text: &[u8], meter: &Meter, wanted: &str, work: [u128; 5]) {
    want(rt, text, wanted.as_bytes(), wanted);
    want(rt, counts(meter), work, wanted);
}

#[test]
fn digests_by_md5crypt(rt: HostRuntime) -> Result<(), Fail> {
    let password = Password::new(b"password")?;
    let mut meter = Meter::new();
    let digest = md5crypt(&password, b"xxxxxxxx", &mut meter);
    let text = pack(Method::Md5crypt, &digest);
    let wanted = "UYCIxa628.9qXjpQCjM4a.";
    want_packed(&rt, text.as_slice(), &meter, wanted, [1002, 36239, 0, 0, 0]);
    Ok(())
}

#[test]
fn digests_by_sha256crypt(rt: HostRuntime) -> Result<(), Fail> {
    let password = Password::new(b"Hello world!")?;
    let mut meter = Meter::new();
    let digest = shacrypt::<CountedSha256>(&password, b"saltstring", 5000, &mut meter);
    let text = pack(Method::Sha256crypt, &digest);
    let wanted = "5B8vYYiY.CVt1RlTTf8KbXBH3hsxY/GNooZaBBGWEc5";
    let work = [5004, 307620, 0, 0, 0];
    want_packed(&rt, text.as_slice(), &meter, wanted, work);
    Ok(())
}

#[test]
fn digests_by_sha512crypt(rt: HostRuntime) -> Result<(), Fail> {
    let password = Password::new(b"This is just a test")?;
    let mut meter = Meter::new();
    let digest = shacrypt::<CountedSha512>(&password, b"toolongsaltstrin", 5000, &mut meter);
    let text = pack(Method::Sha512crypt, &digest);
    let wanted =
        "lQ8jolhgVRVhY4b5pZKaysCLi0QBxGoNeKQzQ3glMhwllF7oGDZxUhx1yxdYcz/e1JSbq3y6JMxxl8audkUEm0";
    let work = [5004, 553274, 0, 0, 0];
    want_packed(&rt, text.as_slice(), &meter, wanted, work);
    Ok(())
}
