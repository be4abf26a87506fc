//! scrypt (RFC 7914) in memory that the caller lends, so that nothing here allocates.

ghost use Rattle.std.specs.Prelude.{◌≡◌, ◌↔◌, ◌-◌, ◌*◌, ◌^◌, ◌<◌, ◌≤◌, Err, length, IsOk, OnOk, OnErr};
ghost use Rattle.prims_core.specs.Meter.{HaveCountAndSum, HasRoom};
ghost use Rattle.kdf_core.specs.Lent.{needed_bytes, needed_words};
ghost use Rattle.kdf_core.specs.Params.{IsBounded};
ghost use Rattle.kdf_core.specs.Scrypt.{scrypt};
ghost use Rattle.kdf_core.specs.ScryptMessages.{scrypt_messages, with_scrypt};
ghost use Rattle.kdf_core.specs.ScryptWork.{scrypt_work};

use crate::params::Params;
use crate::scrypt::{UNIT_BYTES, UNIT_WORDS, derive};
use prims_core::meter::Meter;
use prims_core::rows::LentRows;
use prims_core::scratch::{lent_bytes, lent_words};
use thiserror::Error;

/// Why the lent memory is too small. If both errors apply, `Words` is reported.
#[derive(Clone, Copy, Debug, PartialEq, Eq, Drop, Error)]
pub enum LentFault {
    /// Fewer words are lent than [`needed_words`] returns.
    #[error("too few words are lent")]
    Words,
    /// Fewer bytes are lent than [`needed_bytes`] returns.
    #[error("too few bytes are lent")]
    Bytes,
}

/// Returns the number of words that [`scrypt_lent`] needs, which is `32 * r * (N + 2)`: N rows of the table, and two
/// halves, each as long as a row. The number is at most 2^29.
pub fn needed_words(params: &Params) -> usize
    ensures words { result ≡ needed_words params.now }
    ensures below { result ≤ 2 ^ 29 }
    ensures bounded { IsBounded params.now }
{
    UNIT_WORDS * params.r() as usize * (params.row_count() as usize + 2)
}

/// Returns the number of bytes that [`scrypt_lent`] needs, which is `128 * r * p`: p parts. The number is at most 2^29.
pub fn needed_bytes(params: &Params) -> usize
    ensures bytes { result ≡ needed_bytes params.now }
    ensures below { result ≤ 2 ^ 29 }
{
    UNIT_BYTES * params.r() as usize * params.p() as usize
}

/// Fills `out` with bytes derived from a password and a salt, as [`scrypt`](crate::scrypt::scrypt) does, but in lent
/// memory.
///
/// Preconditions: `out` has at most `32 * (2^32 - 1)` bytes, and each count of the meter is at most 2^120.
///
/// The lent memory may hold anything before the call, and what it holds afterwards is unspecified. The meter counts the
/// same as for [`scrypt`](crate::scrypt::scrypt): the part of the lent memory that is used counts as if it were
/// allocated.
///
/// # Errors
///
/// Returns the first of these errors that applies. `out` and the meter are then unchanged.
///
/// - `Words`: fewer words are lent than [`needed_words`] returns.
/// - `Bytes`: fewer bytes are lent than [`needed_bytes`] returns.
pub fn scrypt_lent(
    words: &mut [u32],
    bytes: &mut [u8],
    password: &[u8],
    salt: &[u8],
    params: &Params,
    out: &mut [u8],
    meter: &mut Meter,
) -> Result<(), LentFault>
    requires few_blocks { length out.old ≤ 32 * (2 ^ 32 - 1) }
    requires room { HasRoom meter.old }
    ensures bytes { OnOk result (out.new ≡ scrypt password.now salt.now params.now (length out.old)) }
    ensures count { OnOk result (meter.new
        ≡ with_scrypt meter.old params.now (length password.now) (length salt.now) (length out.old)) }
    ensures specified { let work = scrypt_work params.now (length password.now) (length salt.now) (length out.old) in
        HaveCountAndSum (scrypt_messages password.now salt.now params.now (length out.old)) work.digests work.bytes }
    ensures enough { needed_words params.now ≤ length words.old → needed_bytes params.now ≤ length bytes.old → IsOk result }
    ensures few_words { (result ≡ Err LentFault.Words) ↔ (length words.old < needed_words params.now) }
    ensures few_bytes { (result ≡ Err LentFault.Bytes)
        ↔ ((needed_words params.now ≤ length words.old) × (length bytes.old < needed_bytes params.now)) }
    ensures unchanged { OnErr result (out.new ≡ out.old) }
    ensures uncounted { OnErr result (meter.new ≡ meter.old) }
    ensures bounded { IsBounded params.now }
{
    let (words_needed, bytes_needed) = (needed_words(params), needed_bytes(params));
    if words.len() < words_needed {
        return Err(LentFault::Words);
    }
    if bytes.len() < bytes_needed {
        return Err(LentFault::Bytes);
    }
    let halves_len = 2 * UNIT_WORDS * params.r() as usize;
    let (halves, table) = words.split_at_mut(halves_len);
    let mut rows = LentRows::new(&mut table[..words_needed - halves_len], meter);
    let parts = lent_bytes(&mut bytes[..bytes_needed], meter);
    let halves = lent_words(halves, meter);
    derive(&mut rows, parts, halves, password, salt, params, out, meter);
    Ok(())
}
