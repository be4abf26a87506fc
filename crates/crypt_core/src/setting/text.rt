//! The canonical form of a setting, which ends with its salt.

ghost use Rattle.std.specs.Prelude.{◌≡◌, ◌+◌, ◌<◌, ◌≤◌, ◌++◌, length, decimal};
ghost use Rattle.arrayvec.specs.ArrayVec.{array_vec_len};
ghost use Rattle.crypt_core.specs.TextLimits.{canonical_limit, hash_limit};
ghost use Rattle.crypt_core.specs.Schemes.{IsScheme, method_of};
ghost use Rattle.crypt_core.specs.MethodLimits.{packed_len};
ghost use Rattle.crypt_core.specs.Settings.{cost_part, canonical_text, Spells};

use super::{CANONICAL_LIMIT, ROUNDS_WORD, Setting, TEXT_CAPACITY};
use crate::scheme::Scheme;
use arrayvec::ArrayVec;
use prims_core::alphabet::put_group;

impl Setting {
    /// Returns the setting in canonical form (crypt(5)), of at most [`CANONICAL_LIMIT`] bytes.
    ///
    /// [`Setting::read`] parses the returned text as this same setting. The text has a `rounds=` field, with the
    /// clamped number, exactly if the setting has one. Together with a `$` and the packed digest, it has at most
    /// [`HASH_LIMIT`](crate::hash::HASH_LIMIT) bytes.
    pub fn text(&self) -> ArrayVec<u8, TEXT_CAPACITY>
        ensures canonical { result.items ≡ canonical_text self.now }
        ensures spelled { Spells (canonical_text self.now) self.now }
        ensures short { array_vec_len result ≤ canonical_limit }
        ensures limit { CANONICAL_LIMIT ≡ canonical_limit }
        ensures room { array_vec_len result + packed_len (method_of self.now.scheme) < hash_limit }
    {
        let mut text = ArrayVec::try_from(self.scheme.method().row().prefix).unwrap();
        append_cost(&mut text, &self.scheme);
        text.try_extend_from_slice(self.salt.as_slice()).unwrap();
        text
    }
}

// Appends the cost part of a setting: a `rounds=` field, or the 11 characters of scrypt's N, r and p, or nothing.
fn append_cost(text: &mut ArrayVec<u8, TEXT_CAPACITY>, scheme: &Scheme)
    requires room { array_vec_len text.old + length (cost_part scheme.now) ≤ TEXT_CAPACITY }
    ensures { text.new.items ≡ text.old.items ++ cost_part scheme.now }
{
    match scheme {
        Scheme::Md5crypt => {}
        Scheme::Shacrypt(_, rounds) => {
            if rounds.is_written() {
                text.try_extend_from_slice(ROUNDS_WORD).unwrap();
                append_decimal(text, rounds.count());
                text.push(b'$');
            }
        }
        Scheme::Scrypt(params) => {
            put_group(text, u32::from(params.log_n()), 1);
            put_group(text, params.r(), 5);
            put_group(text, params.p(), 5);
        }
    }
}

// Appends a number in decimal, without leading zeros.
fn append_decimal(text: &mut ArrayVec<u8, TEXT_CAPACITY>, number: u32)
    requires room { array_vec_len text.old + length (decimal number) ≤ TEXT_CAPACITY }
    ensures { text.new.items ≡ text.old.items ++ decimal number }
{
    if number < 10 {
        text.push(b'0' + number as u8);
        return;
    }
    append_decimal(text, number / 10);
    text.push(b'0' + (number % 10) as u8);
}
