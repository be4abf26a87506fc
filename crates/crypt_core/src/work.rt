//! The work of a hash, computed before hashing so that a service can refuse a setting that would cost it too much. The
//! work is a closed form of what the meter counts during a hash.
ghost use Rattle.std.specs.Prelude.{◌≡◌, ℕ, ◌+◌, ◌*◌, ◌^◌, ◌<◌, ◌≤◌, List, length};
ghost use Rattle.crypt_core.specs.Cycle.{by_digit, digit_bytes};
ghost use Rattle.crypt_core.specs.MethodLimits.{md5crypt_salt_limit, salt_limit, scrypt_salt_limit, shacrypt_salt_limit};
ghost use Rattle.crypt_core.specs.Passwords.{password_limit, IsPassword};
ghost use Rattle.crypt_core.specs.Rounds.{max_rounds};
ghost use Rattle.crypt_core.specs.Schemes.{method_of};
ghost use Rattle.crypt_core.specs.ShaCrypt.{sha_opening_byte};
ghost use Rattle.crypt_core.specs.Work.{cost, cost_by, digests_alone, md5crypt_work, rounds_bytes, shacrypt_work, work, work_bound, work_by, work_limit, IsBelow, IsWithin, greatest_byte};

use crate::md5crypt::ROUNDS;
use crate::scheme::{Scheme, Sha};
use crate::setting::Setting;
use kdf_core::params::Params;
use kdf_core::work::{mixed_bytes, scrypt_work};
use prims_core::counted::{Counted, CountedMd5, CountedSha256, CountedSha512};
pub use prims_core::meter::Work;

/// The greatest value of a byte.
const GREATEST_BYTE: u64 = 255;

impl Scheme {
    /// Returns a bound on the work of one hash with this scheme, for any password and any salt of these lengths in
    /// bytes.
    ///
    /// With md5crypt and scrypt, the work is exactly the bound. With SHA-crypt, a hash digests up to `255 * salt_len`
    /// bytes less. Each count is below 2^41. The call neither hashes nor allocates.
    ///
    /// Preconditions: `password_len` is at most [`PASSWORD_LIMIT`](crate::password::PASSWORD_LIMIT), and `salt_len` at
    /// most what the method keeps (8, 16, 16 or 86).
    pub fn bound(&self, password_len: usize, salt_len: usize) -> Work
        requires password { password_len ≤ password_limit }
        requires salt { salt_len ≤ salt_limit (method_of self.now) }
        ensures bound { result ≡ work_by self.now 255 password_len salt_len }
        ensures never_passed { (password salt : List ℕ) → IsPassword password → length password ≡ password_len
            → length salt ≡ salt_len → IsWithin (work password (record { scheme = self.now; salt = salt })) result }
        ensures below { IsBelow result work_limit }
    {
        let password = password_len as u64;
        let salt = salt_len as u64;
        match self {
            Scheme::Md5crypt => md5crypt_bound(password, salt),
            Scheme::Shacrypt(Sha::Sha256, rounds) => {
                shacrypt_bound::<CountedSha256>(rounds.count(), password, salt)
            }
            Scheme::Shacrypt(Sha::Sha512, rounds) => {
                shacrypt_bound::<CountedSha512>(rounds.count(), password, salt)
            }
            Scheme::Scrypt(params) => scrypt_bound(params, password, salt),
        }
    }

    /// Returns the greatest cost of one hash with this scheme, in bytes, for any password and any salt of these
    /// lengths.
    ///
    /// The cost is the one number that a budget limits: the bytes of the [`bound`](Scheme::bound), and for scrypt also
    /// 128r bytes for each of its mixings. It is below 2^42.
    ///
    /// Preconditions: those of [`bound`](Scheme::bound).
    pub fn cost(&self, password_len: usize, salt_len: usize) -> u64
        requires password { password_len ≤ password_limit }
        requires salt { salt_len ≤ salt_limit (method_of self.now) }
        ensures number { result ≡ cost_by self.now password_len salt_len }
        ensures below { result < 2 ^ 42 }
    {
        let mixed = match self {
            Scheme::Scrypt(params) => mixed_bytes(params),
            Scheme::Md5crypt | Scheme::Shacrypt(..) => 0,
        };
        self.bound(password_len, salt_len).bytes + mixed
    }
}

/// Returns a bound on the work of one hash with this setting, for any password of `password_len` bytes.
///
/// With md5crypt and scrypt, the work is exactly the bound. With SHA-crypt, a hash digests up to 255 bytes less for
/// each byte of the salt. Each count is below 2^41. The call neither hashes nor allocates.
///
/// Precondition: `password_len` is at most [`PASSWORD_LIMIT`](crate::password::PASSWORD_LIMIT).
pub fn bound(setting: &Setting, password_len: usize) -> Work
    requires { password_len ≤ password_limit }
    ensures bound { result ≡ work_bound setting.now password_len }
    ensures never_passed { (password : List ℕ) → IsPassword password → length password ≡ password_len
        → IsWithin (work password setting.now) result }
    ensures below { IsBelow result work_limit }
{
    setting.scheme().bound(password_len, setting.salt().len())
}

/// Returns the greatest cost of one hash with this setting, in bytes, for any password of `password_len` bytes.
///
/// The cost is the one number that a budget limits: the bytes of the [`bound`], and for scrypt also 128r bytes for each
/// of its mixings. It is below 2^42 for every setting. The call neither hashes nor allocates.
///
/// Precondition: `password_len` is at most [`PASSWORD_LIMIT`](crate::password::PASSWORD_LIMIT).
pub fn cost(setting: &Setting, password_len: usize) -> u64
    requires { password_len ≤ password_limit }
    ensures number { result ≡ cost setting.now password_len }
    ensures below { result < 2 ^ 42 }
{
    setting.scheme().cost(password_len, setting.salt().len())
}

// Returns the work of md5crypt for a password and a salt of these lengths in bytes. Its second message has as many
// bytes as the first, the three bytes `$1$`, and one byte for each binary digit of the password's length.
fn md5crypt_bound(password: u64, salt: u64) -> Work
    requires password { password ≤ password_limit }
    requires salt { salt ≤ md5crypt_salt_limit }
    ensures bound { result ≡ md5crypt_work password salt }
    ensures below { IsBelow result work_limit }
{
    let alternate = 2 * password + salt;
    let opening = alternate + 3 + digit_bytes(password, 1, 1);
    let rounds = u64::from(ROUNDS);
    let digest = CountedMd5::LEN as u64;
    digests_alone(
        rounds + 2,
        alternate + opening + rounds_bytes(rounds, digest, password, salt),
    )
}

/// Returns the bound for SHA-crypt with a password and a salt of these lengths in bytes. SHA-crypt repeats the salt
/// more often the greater the first byte of the digest A is. Only hashing gives that byte, so the bound takes the
/// greatest, 255.
pub(crate) fn shacrypt_bound<H: Counted>(rounds: u32, password: u64, salt: u64) -> Work
    requires rounds { rounds ≤ max_rounds }
    requires password { password ≤ password_limit }
    requires salt { salt ≤ shacrypt_salt_limit }
    ensures bound { result ≡ shacrypt_work H.LEN greatest_byte rounds password salt }
    ensures never_passed { (p s : List ℕ) → length p ≡ password → length s ≡ salt
        → IsWithin (shacrypt_work H.LEN (sha_opening_byte H.digest p s) rounds password salt) result }
    ensures below { IsBelow result work_limit }
{
    let rounds = u64::from(rounds);
    let digest = H::LEN as u64;
    let alternate = 2 * password + salt;
    let opening = alternate + digit_bytes(password, digest, password);
    let repeated = password * password + (16 + GREATEST_BYTE) * salt;
    digests_alone(
        rounds + 4,
        alternate + opening + repeated + rounds_bytes(rounds, digest, password, salt),
    )
}

// Returns the work of scrypt for a password and a salt of these lengths in bytes. Its digest has 32 bytes.
fn scrypt_bound(params: &Params, password: u64, salt: u64) -> Work
    requires password { password ≤ password_limit }
    requires salt { salt ≤ scrypt_salt_limit }
    ensures bound { result ≡ work_by (Scheme.Scrypt params.now) greatest_byte password salt }
    ensures below { IsBelow result work_limit }
{
    scrypt_work(params, password, salt, 32)
}

// Returns the work of a scheme that only digests: it neither mixes nor allocates.
fn digests_alone(digests: u64, bytes: u64) -> Work
    ensures { result ≡ digests_alone digests bytes }
{
    Work {
        digests,
        bytes,
        mixes: 0,
        table: 0,
        scratch: 0,
    }
}

// Returns the number of bytes in the part of a message that has `one` bytes for each binary digit 1 of `number`, and
// `other` bytes for each digit 0.
fn digit_bytes(number: u64, one: u64, other: u64) -> u64
    requires number { number ≤ password_limit }
    requires one { one ≤ password_limit }
    requires other { other ≤ password_limit }
    ensures bytes { result ≡ digit_bytes one other number }
    ensures few { result ≤ password_limit * password_limit }
{
    let mut rest = number;
    let mut bytes = 0;
    'digits: while rest > 0 {
        bytes += piece_bytes(rest % 2, one, other);
        rest /= 2;
    }
    bytes
}

// Returns the number of bytes for one binary digit: `one` for a 1, and `other` for a 0.
fn piece_bytes(digit: u64, one: u64, other: u64) -> u64
    ensures { result ≡ by_digit one other digit }
{
    if digit == 1 { one } else { other }
}

// Returns the number of bytes in the messages of all rounds, for a digest, a password and a salt of these lengths.
// Rounds 0, 3, 6, .. omit the salt, and rounds 0, 7, 14, .. omit the second password.
fn rounds_bytes(rounds: u64, digest: u64, password: u64, salt: u64) -> u64
    requires rounds { rounds ≤ max_rounds }
    requires digest { digest ≤ 64 }
    requires password { password ≤ password_limit }
    requires salt { salt ≤ shacrypt_salt_limit }
    ensures bytes { result ≡ rounds_bytes rounds digest password salt }
    ensures few { result ≤ rounds * (digest + 2 * password + salt) }
{
    let with_salt = rounds - rounds.div_ceil(3);
    let with_password_twice = rounds - rounds.div_ceil(7);
    rounds * (digest + password) + with_salt * salt + with_password_twice * password
}
