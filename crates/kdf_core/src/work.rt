//! The work of scrypt, computed before hashing: the counts by which scrypt raises its meter, as a closed form, and the
//! number of bytes that it mixes.

ghost use Rattle.std.specs.Prelude.{◌≡◌, ◌+◌, ◌^◌, ◌≤◌};
ghost use Rattle.kdf_core.specs.Hmac.{tag_bytes};
ghost use Rattle.kdf_core.specs.Params.{IsBounded};
ghost use Rattle.kdf_core.specs.ScryptWork.{mixed_bytes, scrypt_work};

use crate::hmac::{SHA256_BLOCK, SHA256_LENGTH};
use crate::params::Params;
use crate::scrypt::UNIT_BYTES;
use prims_core::meter::Work;

/// Returns the work of scrypt for a password, a salt and a result of these lengths in bytes (RFC 7914, section 6).
///
/// [`scrypt`](crate::scrypt::scrypt) raises its meter by exactly this work. This call itself neither derives nor
/// allocates anything.
///
/// Precondition: each length is at most 2^32. So the number of digested bytes is far below 2^64.
pub fn scrypt_work(params: &Params, password_len: u64, salt_len: u64, out_len: u64) -> Work
    requires password { password_len ≤ 2 ^ 32 }
    requires salt { salt_len ≤ 2 ^ 32 }
    requires out { out_len ≤ 2 ^ 32 }
    ensures work { result ≡ scrypt_work params.now password_len salt_len out_len }
    ensures bounded { IsBounded params.now }
{
    let rows = u64::from(params.row_count());
    let r = u64::from(params.r());
    let p = u64::from(params.p());
    let part = UNIT_BYTES as u64 * r;
    let parts = part * p;
    let blocks = out_len.div_ceil(SHA256_LENGTH as u64);
    let key_digests = u64::from(password_len > SHA256_BLOCK as u64);
    // PBKDF2 derives the parts as 4rp blocks of 32 bytes, and then the result. Each block takes two digests.
    Work {
        digests: 8 * (r * p) + 2 * blocks + key_digests,
        bytes: key_digests * password_len
            + 4 * (r * p) * salted_tag_bytes(salt_len)
            + blocks * salted_tag_bytes(parts),
        mixes: 2 * rows * p,
        table: rows * part,
        scratch: parts + 2 * part,
    }
}

/// Returns the number of bytes that scrypt mixes, which is at most 2^31.
///
/// Each of the 2Np mixings mixes 128r bytes, so the number is 256 times the product `N * r * p`.
pub fn mixed_bytes(params: &Params) -> u64
    ensures bytes { result ≡ mixed_bytes params.now }
    ensures below { result ≤ 2 ^ 31 }
{
    2 * UNIT_BYTES as u64 * u64::from(params.product())
}

// Returns the number of bytes digested for the tag of a salt of `salt` bytes and a block's number: two padded keys, the
// inner digest, the salt, and the 4 bytes of the number.
fn salted_tag_bytes(salt: u64) -> u64
    requires { salt ≤ 2 ^ 32 }
    ensures { result ≡ tag_bytes (salt + 4) }
{
    (2 * SHA256_BLOCK + SHA256_LENGTH) as u64 + (salt + 4)
}
