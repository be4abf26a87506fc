//! Tests of crypt's alphabet and of numbers as bytes.

use super::want;
use arrayvec::ArrayVec;
use prims_core::alphabet::{char_of, put_group, read_30, value_of};
use prims_core::words::{load_words, number_be, store_words};

#[test]
fn characters_and_values(rt: HostRuntime) {
    for &(value, character) in &[
        (0, b'.'),
        (1, b'/'),
        (2, b'0'),
        (11, b'9'),
        (12, b'A'),
        (37, b'Z'),
        (38, b'a'),
        (63, b'z'),
    ] {
        // The prover needs this bound, which `char_of` requires.
        assert!(rt; value < 64);
        assert_eq!(rt;
            (char_of(value), value_of(character)),
            (character, Some(value)),
            "{value}"
        );
    }
    for &outside in &[b'$', b'-', b':', b'@', b'[', b'`', b'{', 0, 255] {
        assert_eq!(rt; value_of(outside), None, "of {outside}");
    }
}

#[test]
fn groups(rt: HostRuntime) {
    let mut out = ArrayVec::new();
    put_group(&mut out, 1, 4);
    put_group(&mut out, 0xfff, 2);
    assert_eq!(rt; out.as_slice(), b"/...zz".as_slice());
}

#[test]
fn numbers_of_five_characters(rt: HostRuntime) {
    for &(digits, number) in &[
        ("6....", Some(8)),
        ("U....", Some(32)),
        ("zzzzz", Some(1_073_741_823)),
        ("./...", Some(64)),
        ("6...", None),
        ("6...$", None),
        ("6.....", None),
        ("", None),
    ] {
        want(&rt, read_30(digits.as_bytes()), number, digits);
    }
}

#[test]
fn numbers_with_the_highest_byte_first(rt: HostRuntime) {
    for &(number, bytes) in &[
        (1, [0, 0, 0, 1]),
        (0x0123_4567, [0x01, 0x23, 0x45, 0x67]),
        (0xffff_ffff, [0xff, 0xff, 0xff, 0xff]),
    ] {
        assert_eq!(rt; number_be(number), bytes, "of {number}");
    }
}

#[test]
fn words_with_the_lowest_byte_first(rt: HostRuntime) {
    for &(bytes, words) in &[
        ([1, 0, 0, 0, 0, 0, 0, 0], [1, 0]),
        (
            [0x67, 0x45, 0x23, 0x01, 0xef, 0xcd, 0xab, 0x89],
            [0x0123_4567, 0x89ab_cdef],
        ),
    ] {
        let mut loaded = [7; 2];
        load_words(&bytes, &mut loaded);
        let mut stored = [7; 8];
        store_words(&words, &mut stored);
        assert_eq!(rt; (loaded, stored), (words, bytes), "{bytes:?}");
    }
}
