//! The memory that scrypt works in: the heap, or memory that the caller lends. No other method needs any.
ghost use Rattle.std.specs.Prelude.{◌≡◌, ◌≤◌, length, IfOk, IsOk, OnOk, OnErr};
ghost use Rattle.prims_core.specs.Meter.{HasRoom};
ghost use Rattle.kdf_core.specs.Lent.{needed_bytes, needed_words};
ghost use Rattle.kdf_core.specs.Params.{ScryptParams};
ghost use Rattle.kdf_core.specs.Scrypt.{scrypt};
ghost use Rattle.kdf_core.specs.ScryptMessages.{with_scrypt};
ghost use Rattle.kdf_core.specs.ScryptWork.{IsAfterRefusal};
ghost use Rattle.crypt_core.specs.MethodLimits.{digest_len};
ghost use Rattle.crypt_core.specs.Needs.{bytes_by, words_by, AreEnough};
ghost use Rattle.crypt_core.specs.declared.method.Method.TheVariants.{Scrypt};
ghost use Rattle.crypt_core.specs.declared.scheme.Scheme.{Scheme};

use arrayvec::ArrayVec;
use kdf_core::lent::scrypt_lent;
use kdf_core::params::Params;
use kdf_core::scrypt::scrypt;
use prims_core::meter::Meter;
use std::alloc::{AllocError, Global};

/// Memory that scrypt works in.
pub trait Memory {
    // `IsEnough memory params`: the memory is known to be enough for scrypt with these parameters. Memory that is known
    // to be enough stays so after a call of `scrypt` (clause `kept`).
    ghost IsEnough: { Self → ScryptParams → Type 0 };

    /// Returns scrypt's digest, which has 32 bytes (RFC 7914).
    ///
    /// Precondition: each count of the meter is at most 2^120.
    ///
    /// # Errors
    ///
    /// [`AllocError`] if an allocation fails, or the caller lent too little. The meter counts only the allocations that
    /// succeeded.
    fn scrypt(
        &mut self,
        password: &[u8],
        salt: &[u8],
        params: &Params,
        meter: &mut Meter,
    ) -> Result<ArrayVec<u8, 64>, AllocError>
        requires { HasRoom meter.old }
        ensures digest { IfOk result (λ digest. digest.items ≡ scrypt password.now salt.now params.now (digest_len Scrypt)) }
        ensures length { IfOk result (λ digest. length digest.items ≡ digest_len Scrypt) }
        ensures count { OnOk result (meter.new
            ≡ with_scrypt meter.old params.now (length password.now) (length salt.now) (digest_len Scrypt)) }
        ensures refused { OnErr result (IsAfterRefusal meter.old params.now meter.new) }
        ensures enough { IsEnough self.old params.now → IsOk result }
        ensures kept { (other : ScryptParams) → IsEnough self.old other → IsEnough self.new other };
}

impl Memory for Global {
    // Any allocation can fail, so the heap is never known to be enough.
    ghost IsEnough = { λ _ _. ⊥ };

    fn scrypt(
        &mut self,
        password: &[u8],
        salt: &[u8],
        params: &Params,
        meter: &mut Meter,
    ) -> Result<ArrayVec<u8, 64>, AllocError> {
        let mut digest = [0; 32];
        scrypt(*self, password, salt, params, &mut digest, meter)?;
        Ok(ArrayVec::try_from(digest.as_slice()).unwrap())
    }
}

/// Memory that a caller lends, for any number of hashes, one after another. Its contents before a hash don't matter,
/// and after one they are unspecified.
#[derive(Drop)]
pub struct Lent<'a> {
    words: &'a mut [u32],
    bytes: &'a mut [u8],
}

impl<'a> Lent<'a> {
    /// Returns the words and bytes as memory for scrypt. They are enough for a scheme if there are at least as many as
    /// [`Scheme::need`](crate::scheme::Scheme::need) returns.
    pub fn new(words: &'a mut [u32], bytes: &'a mut [u8]) -> Lent<'a>
        ensures enough { (scheme : Scheme) → words_by scheme ≤ length words.old → bytes_by scheme ≤ length bytes.old
            → AreEnough (⟦<Lent<'a> as Memory>⟧.IsEnough result) scheme }
    {
        Lent { words, bytes }
    }
}

impl<'a> Memory for Lent<'a> {
    ghost IsEnough = { λ lent params. (needed_words params ≤ length lent.words.now)
        × (needed_bytes params ≤ length lent.bytes.now) };

    fn scrypt(
        &mut self,
        password: &[u8],
        salt: &[u8],
        params: &Params,
        meter: &mut Meter,
    ) -> Result<ArrayVec<u8, 64>, AllocError> {
        let mut digest = [0; 32];
        match scrypt_lent(
            self.words,
            self.bytes,
            password,
            salt,
            params,
            &mut digest,
            meter,
        ) {
            Ok(()) => Ok(ArrayVec::try_from(digest.as_slice()).unwrap()),
            Err(_) => Err(AllocError),
        }
    }
}
