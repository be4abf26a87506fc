//! The packed form of a digest (crypt(5)): its bytes in the groups that the method fixes, each group a number in base
//! 64.
ghost use Rattle.std.specs.Prelude.{◌≡◌, ◌+◌, ◌^◌, ◌<◌, ◌≤◌, ◌++◌, ◌↔◌, length, IsTrue};
ghost use Rattle.crypt_core.specs.MethodLimits.{digest_len, packed_len};
ghost use Rattle.crypt_core.specs.Packing.{packed, IsPacked, group_number};
ghost use Rattle.crypt_core.specs.Private.Groups.{IsGroup};

use crate::method::{Method, SHA512CRYPT_PACKED_LEN};
use crate::setting::{TEXT_CAPACITY, in_alphabet};
use arrayvec::ArrayVec;
use prims_core::alphabet::{put_group, value_of};

/// The groups of md5crypt's digest, as indices into it. The first index is the highest byte of the group's number.
pub(crate) const MD5CRYPT_GROUPS: [&[usize]; 6] = [
    &[0, 6, 12],
    &[1, 7, 13],
    &[2, 8, 14],
    &[3, 9, 15],
    &[4, 10, 5],
    &[11],
];

/// The groups of sha256crypt's digest (Drepper's specification, step 22).
pub(crate) const SHA256CRYPT_GROUPS: [&[usize]; 11] = [
    &[0, 10, 20],
    &[21, 1, 11],
    &[12, 22, 2],
    &[3, 13, 23],
    &[24, 4, 14],
    &[15, 25, 5],
    &[6, 16, 26],
    &[27, 7, 17],
    &[18, 28, 8],
    &[9, 19, 29],
    &[31, 30],
];

/// The groups of sha512crypt's digest (Drepper's specification, step 22).
pub(crate) const SHA512CRYPT_GROUPS: [&[usize]; 22] = [
    &[0, 21, 42],
    &[22, 43, 1],
    &[44, 2, 23],
    &[3, 24, 45],
    &[25, 46, 4],
    &[47, 5, 26],
    &[6, 27, 48],
    &[28, 49, 7],
    &[50, 8, 29],
    &[9, 30, 51],
    &[31, 52, 10],
    &[53, 11, 32],
    &[12, 33, 54],
    &[34, 55, 13],
    &[56, 14, 35],
    &[15, 36, 57],
    &[37, 58, 16],
    &[59, 17, 38],
    &[18, 39, 60],
    &[40, 61, 19],
    &[62, 20, 41],
    &[63],
];

/// The groups of scrypt's digest, as indices into it: the bytes in order, three to a group, and the highest index of
/// each group first.
pub(crate) const SCRYPT_GROUPS: [&[usize]; 11] = [
    &[2, 1, 0],
    &[5, 4, 3],
    &[8, 7, 6],
    &[11, 10, 9],
    &[14, 13, 12],
    &[17, 16, 15],
    &[20, 19, 18],
    &[23, 22, 21],
    &[26, 25, 24],
    &[29, 28, 27],
    &[31, 30],
];

/// Returns the packed form of a method's digest (crypt(5)): 22, 43, 86 or 43 characters, in the order of [`Method`].
///
/// Precondition: `digest` has the length of the method's digest: 16, 32, 64 or 32 bytes.
pub fn pack(method: Method, digest: &[u8]) -> ArrayVec<u8, SHA512CRYPT_PACKED_LEN>
    requires { length digest.now ≡ digest_len method }
    ensures text { result.items ≡ packed method digest.now }
    ensures length { length result.items ≡ packed_len method }
{
    let mut text = ArrayVec::new();
    append_packed(&mut text, method, digest);
    ArrayVec::try_from(text.as_slice()).unwrap()
}

/// Appends the packed form of a method's digest, as [`pack`] returns it.
pub(crate) fn append_packed(text: &mut ArrayVec<u8, TEXT_CAPACITY>, method: Method, digest: &[u8])
    requires digest { length digest.now ≡ digest_len method }
    requires room { length text.old.items + packed_len method ≤ TEXT_CAPACITY }
    ensures text { text.new.items ≡ text.old.items ++ packed method digest.now }
    ensures length { length text.new.items ≡ length text.old.items + packed_len method }
{
    let groups = method.row().groups;
    'groups: for places in groups {
        put_group(text, number_of(digest, places), places.len() + 1);
    }
}

// Returns the number whose bytes are at these indices of the digest, from the highest byte to the lowest.
fn number_of(digest: &[u8], places: &[usize]) -> u32
    requires { IsGroup (length digest.now) places.now }
    ensures value { result ≡ group_number digest.now places.now }
    ensures fits { result < 64 ^ (length places.now + 1) }
{
    let mut number = 0;
    'places: for place in places {
        number = number * 256 + u32::from(digest[*place]);
    }
    number
}

/// Returns whether `text` is the packed form of some digest of the method.
pub(crate) fn is_packed(method: Method, text: &[u8]) -> bool
    ensures { IsTrue result ↔ IsPacked method text.now }
{
    let row = method.row();
    if text.len() != row.packed_len {
        return false;
    }
    if !in_alphabet(text) {
        return false;
    }
    match value_of(text[text.len() - 1]) {
        Some(value) => value < row.last_value_limit,
        None => false,
    }
}
