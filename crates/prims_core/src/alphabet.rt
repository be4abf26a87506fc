//! The alphabet of crypt(5) and its base-64 numerals.
//!
//! A character encodes six bits, as a value from 0 to 63. The first character of a number has its lowest six bits, so
//! `/...` is 1.

ghost use Rattle.std.specs.Prelude.{◌≡◌, ℕ, ◌+◌, ◌^◌, ◌<◌, ◌≤◌, ◌++◌, ◌↔◌, length, All, Contains, IfSome, Some, IsSome};
ghost use Rattle.arrayvec.specs.ArrayVec.{array_vec_len};
ghost use Rattle.prims_core.specs.Alphabet.{alphabet, character_of, numerals};

use arrayvec::ArrayVec;

// The 64 characters, in the order of their values.
const CHARACTERS: [u8; 64] = *b"./0123456789ABCDEFGHIJKLMNOPQRSTUVWXYZabcdefghijklmnopqrstuvwxyz";

/// Returns the character for a value. Precondition: the value is below 64.
pub fn char_of(value: u8) -> u8
    requires { value < 64 }
    ensures { result ≡ character_of value }
{
    CHARACTERS[value as usize]
}

/// Returns the value of a character, from 0 to 63, or `None` for a byte outside the alphabet.
///
/// This is the inverse of [`char_of`].
pub fn value_of(character: u8) -> Option<u8>
    ensures accepts { IsSome result ↔ Contains alphabet character }
    ensures value { IfSome result (λ v. (v < 64) × (character_of v ≡ character)) }
    ensures inverse { (v : ℕ) → v < 64 → character_of v ≡ character → result ≡ Some v }
{
    match character {
        // In ASCII, `.` and `/` come directly before the digits.
        b'.'..=b'9' => Some(character - b'.'),
        b'A'..=b'Z' => Some(character - b'A' + 12),
        b'a'..=b'z' => Some(character - b'a' + 38),
        _ => None,
    }
}

/// Appends `value` to `out` as `chars` characters, lowest six bits first.
///
/// Preconditions:
///
/// - `chars` is 1 to 5.
/// - `value` has at most `6 * chars` bits.
/// - `out`, which holds at most 160 bytes, has capacity left for the characters.
pub fn put_group(out: &mut ArrayVec<u8, 160>, value: u32, chars: usize)
    requires some { 1 ≤ chars }
    requires few { chars ≤ 5 }
    requires fits { value < 64 ^ chars }
    requires room { array_vec_len out.old + chars ≤ 160 }
    ensures items { out.new.items ≡ out.old.items ++ numerals chars value }
    ensures len { array_vec_len out.new ≡ array_vec_len out.old + chars }
{
    let mut rest = value;
    'characters: for _ in 0..chars {
        out.push(char_of((rest % 64) as u8));
        rest /= 64;
    }
}

/// Returns the number that five characters encode, lowest six bits first. The number is below 2^30.
///
/// Returns `None` for a slice of another length, or with a byte outside the alphabet.
pub fn read_30(digits: &[u8]) -> Option<u32>
    ensures accepts { IsSome result ↔ ((length digits.now ≡ 5) × All (Contains alphabet) digits.now) }
    ensures number { IfSome result (λ n. (n < 2 ^ 30) × (numerals 5 n ≡ digits.now)) }
    ensures inverse { (n : ℕ) → n < 2 ^ 30 → numerals 5 n ≡ digits.now → result ≡ Some n }
{
    if digits.len() != 5 {
        return None;
    }
    let mut number = 0;
    'digits: for digit in digits.iter().rev() {
        number = number * 64 + u32::from(value_of(*digit)?);
    }
    Some(number)
}
