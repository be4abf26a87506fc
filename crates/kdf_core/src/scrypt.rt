//! scrypt (RFC 7914), over PBKDF2 and ROMix.
//!
//! All memory is allocated before any work: one table, which all parts use one after another; the p parts (`B[i]`), as
//! bytes; and two halves, as words, each as long as a part. [`scrypt_lent`](crate::lent::scrypt_lent) takes this memory
//! from its caller instead.

ghost use Rattle.std.specs.Prelude.{◌≡◌, ◌*◌, ◌-◌, ◌^◌, ◌≤◌, length, OnOk, OnErr};
ghost use Rattle.prims_core.specs.Meter.{HaveCountAndSum, HasDigestRoom, HasRoom};
ghost use Rattle.kdf_core.specs.Params.{IsBounded, row_count};
ghost use Rattle.kdf_core.specs.Private.Mixing.{part_words, with_derivation};
ghost use Rattle.kdf_core.specs.Scrypt.{parts_bytes, scrypt};
ghost use Rattle.kdf_core.specs.ScryptMessages.{scrypt_messages, with_scrypt};
ghost use Rattle.kdf_core.specs.ScryptWork.{scrypt_work, IsAfterRefusal};

use crate::hmac::HmacKey;
use crate::params::Params;
use crate::pbkdf2::pbkdf2;
use crate::romix::mix_parts;
use prims_core::meter::Meter;
use prims_core::rows::Rows;
use prims_core::scratch::{ByteScratch, WordScratch};
use prims_core::table::Table;
use std::alloc::{AllocError, Global};

/// The number of bytes of a unit, which is two 64-byte blocks. A part and a row of the table have r units.
pub(crate) const UNIT_BYTES: usize = 128;

/// The number of 4-byte words of a unit.
pub(crate) const UNIT_WORDS: usize = UNIT_BYTES / 4;

/// Fills `out` with bytes derived from a password and a salt (RFC 7914, section 6).
///
/// Preconditions: `out` has at most `32 * (2^32 - 1)` bytes, and each count of the meter is at most 2^120.
///
/// The call first makes three allocations, in this order: the table of `128 * N * r` bytes, the parts of
/// `128 * r * p` bytes, and the halves of `256 * r` bytes. The meter counts these bytes and `2 * N * p` mixings.
///
/// It also counts two digests for each block of 32 bytes that PBKDF2 derives. The parts are `4 * r * p` such blocks,
/// and the last block of `out` may be short. For a block of the parts, the two digest 164 bytes and the salt; for a
/// block of `out`, they digest 164 bytes and all parts. A password of more than 64 bytes takes one more digest, of its
/// own length.
///
/// # Errors
///
/// [`AllocError`] if an allocation fails. `out` is then unchanged, and the meter has counted only the allocations
/// before the one that failed.
pub fn scrypt(
    alloc: Global,
    password: &[u8],
    salt: &[u8],
    params: &Params,
    out: &mut [u8],
    meter: &mut Meter,
) -> Result<(), AllocError>
    requires few_blocks { length out.old ≤ 32 * (2 ^ 32 - 1) }
    requires room { HasRoom meter.old }
    ensures bytes { OnOk result (out.new ≡ scrypt password.now salt.now params.now (length out.old)) }
    ensures count { OnOk result (meter.new
        ≡ with_scrypt meter.old params.now (length password.now) (length salt.now) (length out.old)) }
    ensures specified { let work = scrypt_work params.now (length password.now) (length salt.now) (length out.old) in
        HaveCountAndSum (scrypt_messages password.now salt.now params.now (length out.old)) work.digests work.bytes }
    ensures unchanged { OnErr result (out.new ≡ out.old) }
    ensures refused { OnErr result (IsAfterRefusal meter.old params.now meter.new) }
    ensures bounded { IsBounded params.now }
{
    let rows = params.row_count() as usize;
    let r = params.r() as usize;
    let p = params.p() as usize;
    let table = Table::new(alloc, rows, UNIT_WORDS * r, meter)?;
    let mut parts = ByteScratch::new(alloc, UNIT_BYTES * r * p, meter)?;
    let mut halves = WordScratch::new(alloc, 2 * UNIT_WORDS * r, meter)?;
    derive(
        &mut table.into_words(),
        parts.bytes_mut(),
        halves.words_mut(),
        password,
        salt,
        params,
        out,
        meter,
    );
    Ok(())
}

/// Fills `out` as scrypt does (RFC 7914, section 6), in memory that the meter has counted already.
///
/// Preconditions:
///
/// - `rows` has memory for `32 * N * r` words, `parts` has `128 * r * p` bytes, and `halves` has `64 * r` words.
/// - `out` has at most `32 * (2^32 - 1)` bytes.
/// - The meter's digests, bytes and mixings are each at most 2^120.
pub(crate) fn derive<M: Rows>(
    rows: &mut M,
    parts: &mut [u8],
    halves: &mut [u32],
    password: &[u8],
    salt: &[u8],
    params: &Params,
    out: &mut [u8],
    meter: &mut Meter,
)
    requires few_blocks { length out.old ≤ 32 * (2 ^ 32 - 1) }
    requires room { HasDigestRoom meter.old }
    requires mixes_room { meter.old.mixes ≤ 2 ^ 120 }
    requires rows { row_count params.now * part_words params.now.r ≤ M.room rows.old }
    requires parts { length parts.old ≡ parts_bytes params.now }
    requires halves { length halves.old ≡ 2 * part_words params.now.r }
    ensures bytes { out.new ≡ scrypt password.now salt.now params.now (length out.old) }
    ensures count { meter.new
        ≡ with_derivation meter.old params.now (length password.now) (length salt.now) (length out.old) }
{
    let row_count = params.row_count() as usize;
    let p = params.p() as usize;
    let key = HmacKey::new(password, meter);
    // B = PBKDF2 (P, S, 1, 128rp)
    pbkdf2(&key, salt, 1, parts, meter);
    // B[i] = scryptROMix (r, B[i], N)
    mix_parts(parts, p, row_count, rows, halves, meter);
    // DK = PBKDF2 (P, B, 1, dkLen)
    pbkdf2(&key, parts, 1, out, meter);
}
