//! Salts generated from three random 64-bit numbers, whose bits become characters of crypt's alphabet.

ghost use Rattle.std.specs.Prelude.{◌≡◌, ◌≤◌, length, All, Contains};
ghost use Rattle.prims_core.specs.Alphabet.{alphabet};
ghost use Rattle.crypt_core.specs.MadeSalts.{made_salt, three_words};
ghost use Rattle.crypt_core.specs.MethodLimits.{made_salt_length, made_salt_limit};

pub use crate::method::MADE_SALT_LIMIT;
use crate::method::Method;
use arrayvec::ArrayVec;
use prims_core::alphabet::char_of;
use rand_core::Rng;

/// Returns the salt of `len` characters that three random numbers give.
///
/// Each number gives up to ten characters of six bits, lowest bits first. Its highest four bits are not used.
/// [`Setting::make`](crate::setting::Setting::make) accepts such a salt, unless it is empty, for each method that keeps
/// that many characters.
///
/// Precondition: `len` is at most [`MADE_SALT_LIMIT`].
pub fn salt_of(words: [u64; 3], len: usize) -> ArrayVec<u8, MADE_SALT_LIMIT>
    requires { len ≤ made_salt_limit }
    ensures items { result.items ≡ made_salt words len }
    ensures length { length result.items ≡ len }
    ensures characters { All (Contains alphabet) result.items }
{
    let mut salt = ArrayVec::new();
    'characters: for i in 0..len {
        let value = (words[i / 10] >> (6 * (i % 10))) & 63;
        salt.push(char_of(value as u8));
    }
    salt
}

/// Returns the number of characters of a generated salt: as many as the method keeps, but 22 for scrypt, which is 132
/// bits.
pub fn made_salt_length(method: Method) -> usize
    ensures length { result ≡ made_salt_length method }
    ensures enough { result ≤ made_salt_limit }
{
    method.row().made_salt_length
}

/// Returns the next three numbers of the generator, in order.
pub fn draw<R: Rng>(rng: &mut R) -> [u64; 3]
    ensures { (result, R.stream rng.new) ≡ three_words (R.stream rng.old) }
{
    [rng.next_u64(), rng.next_u64(), rng.next_u64()]
}
