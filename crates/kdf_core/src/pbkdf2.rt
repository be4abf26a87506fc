//! PBKDF2 over HMAC-SHA-256 (RFC 8018, section 5.2).
//!
//! Each block of the result is computed in an array and then copied to its place in `out`, so nothing here allocates.

ghost use Rattle.std.specs.Prelude.{◌≡◌, ℕ, ◌+◌, ◌-◌, ◌*◌, ◌^◌, ◌<◌, ◌≤◌, List, ◌++◌, length, take};
ghost use Rattle.prims_core.specs.Meter.{with_work};
ghost use Rattle.kdf_core.specs.HmacMessages.{IsKeyOf};
ghost use Rattle.kdf_core.specs.Pbkdf2.{block, pbkdf2_sha256};
ghost use Rattle.kdf_core.specs.Pbkdf2Messages.{block_bytes, pbkdf2_digests, pbkdf2_bytes};

use crate::hmac::{HmacKey, SHA256_LENGTH, xor_into};
use prims_core::meter::Meter;
use prims_core::words::number_be;

/// Fills `out` with the bytes that PBKDF2 derives from a password and a salt (RFC 8018, section 5.2).
///
/// `key` is prepared from the password. `out` is filled in blocks of 32 bytes, the last of which may be short. Each
/// block takes two digests in each round. Together, these two digest 164 bytes and the salt in the first round, and 192
/// bytes in each later round.
///
/// Preconditions:
///
/// - `rounds` is at least 1.
/// - `out` has at most `32 * (2^32 - 1)` bytes.
/// - The meter can count the work without overflow.
pub fn pbkdf2(key: &HmacKey, salt: &[u8], rounds: u32, out: &mut [u8], meter: &mut Meter)
    requires some_round { 1 ≤ rounds }
    requires few_blocks { length out.old ≤ 32 * (2 ^ 32 - 1) }
    requires digests_room { meter.old.digests + pbkdf2_digests rounds (length out.old) < 2 ^ 128 }
    requires bytes_room { meter.old.bytes + pbkdf2_bytes (length salt.now) rounds (length out.old) < 2 ^ 128 }
    ensures bytes { (password : List ℕ) → IsKeyOf key.now password
        → out.new ≡ pbkdf2_sha256 password salt.now rounds (length out.old) }
    ensures count { meter.new ≡ with_work meter.old (pbkdf2_digests rounds (length out.old))
        (pbkdf2_bytes (length salt.now) rounds (length out.old)) }
{
    'filling: for i in 0..out.len().div_ceil(SHA256_LENGTH) {
        let block = derived_block(key, salt, rounds, i as u32 + 1, meter);
        put_block(out, SHA256_LENGTH * i, &block);
    }
}

// Returns T_i = U_1 XOR U_2 XOR .. XOR U_c, where i is `number` and c is `rounds` (step 3).
fn derived_block(
    key: &HmacKey,
    salt: &[u8],
    rounds: u32,
    number: u32,
    meter: &mut Meter,
) -> [u8; 32]
    requires some_round { 1 ≤ rounds }
    requires digests_room { meter.old.digests + 2 * rounds < 2 ^ 128 }
    requires bytes_room { meter.old.bytes + block_bytes (length salt.now) rounds < 2 ^ 128 }
    ensures block { (password : List ℕ) → IsKeyOf key.now password
        → result ≡ block password salt.now rounds number }
    ensures count { meter.new ≡ with_work meter.old (2 * rounds) (block_bytes (length salt.now) rounds) }
{
    // U_1 = PRF (P, S || INT (i))
    let mut last = key.tag(salt, &number_be(number), meter);
    let mut sum = last;
    'rounds: for _ in 1..rounds {
        // U_j = PRF (P, U_(j-1))
        last = key.tag(&last, &[], meter);
        xor_into(&mut sum, &last);
    }
    sum
}

// Copies the block to `out` from `start` on. If the block doesn't fit, it is cut.
fn put_block(out: &mut [u8], start: usize, block: &[u8; 32])
    requires { start < length out.old }
    ensures { take (start + 32) out.new ≡ take start out.old ++ take (length out.old - start) block.now }
{
    let count = (out.len() - start).min(SHA256_LENGTH);
    out[start..start + count].copy_from_slice(&block[..count]);
}
