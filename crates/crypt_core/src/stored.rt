//! Stored fields, as a password file has them (shadow(5)): an empty field, a locked one, or a stored hash. A stored
//! hash is parsed once and keeps its setting.

ghost use Rattle.std.specs.Prelude.{◌≡◌, ◌↔◌, ℕ, List, Err, IsTrue, IfOk, IfErr, IsOk};
ghost use Rattle.prims_core.specs.Meter.{HasRoom};
ghost use Rattle.kdf_core.specs.Params.{ScryptParams};
ghost use Rattle.crypt_core.specs.declared.setting.fault.SettingFault.{SettingFault as Refusal};
ghost use Rattle.crypt_core.specs.Crypt.{crypt};
ghost use Rattle.crypt_core.specs.Metering.{IsMetered};
ghost use Rattle.crypt_core.specs.Needs.{AreEnough};
ghost use Rattle.crypt_core.specs.Readings.{IsFieldReading, IsReadOneWay};
ghost use Rattle.crypt_core.specs.Fits.{Fits};
ghost use Rattle.crypt_core.specs.Refusals.{IsRefused};
ghost use Rattle.crypt_core.specs.Settings.{Spells};
ghost use Rattle.crypt_core.specs.StoredFields.{IsHashOf, IsLocked, IsWhole};

use crate::hash::{HashFault, hash_by};
use crate::memory::Memory;
use crate::pack::is_packed;
use crate::password::Password;
use crate::same::same_bytes;
use crate::setting::{Setting, SettingFault};
use prims_core::meter::Meter;
use std::marker::Model;

/// A stored hash and the setting that it spells. Contracts see both the bytes and the setting.
#[derive(Drop)]
pub struct StoredHash<'a> {
    text: &'a [u8],
    setting: Setting,
}

impl<'a> Model for StoredHash<'a> {
    ghost use Rattle.crypt_core.specs.Settings.{Spells};
    ghost use Rattle.crypt_core.specs.StoredFields.{StoredHash};

    ghost Value = { StoredHash };

    ghost view = { λ a. record { text = a.text.now; setting = a.setting } };

    ghost invariant = { λ a. Spells a.text.now a.setting };
}

impl<'a> StoredHash<'a> {
    /// Returns the stored hash with the setting that it spells, as [`Setting::read`] parses it.
    ///
    /// # Errors
    ///
    /// The first rule that the stored hash breaks as a setting, in the order of [`SettingFault`].
    pub fn read(text: &'a [u8]) -> Result<StoredHash<'a>, SettingFault>
        ensures spelled { IfOk result (IsHashOf text.now) }
        ensures refused { IfErr result (IsRefused text.now) }
        ensures each_refusal { (fault : Refusal) → IsRefused text.now fault → result ≡ Err fault }
    {
        let setting = Setting::read(text)?;
        Ok(StoredHash { text, setting })
    }

    /// Returns the bytes of the stored hash.
    pub fn text(&self) -> &'a [u8]
        ensures { result.now ≡ self.now.text }
    {
        self.text
    }

    /// Returns the setting that the stored hash spells.
    pub fn setting(&self) -> &Setting
        ensures value { result.now ≡ self.now.setting }
        ensures spelled { Spells self.now.text self.now.setting }
    {
        &self.setting
    }

    /// Returns whether the stored hash consists of its setting in canonical form, a `$`, and the packed form of some
    /// digest. If it doesn't, no password matches it.
    ///
    /// For example, `$6$rounds=10$..` is not whole, because its rounds are clamped to 1000, and neither is `$6$salt`.
    /// The call hashes nothing.
    pub fn is_whole(&self) -> bool
        ensures whole { IsTrue result ↔ IsWhole self.now.text self.now.setting }
        ensures dead { ¬ IsTrue result → (password : List ℕ) → ¬ Fits password self.now.text }
    {
        let mut front = self.setting.text();
        front.push(b'$');
        match self.text.strip_prefix(front.as_slice()) {
            Some(packed) => is_packed(self.setting.method(), packed),
            None => false,
        }
    }

    /// Returns whether hashing the password with the setting reproduces the stored hash, to the last byte. scrypt works
    /// in `memory`.
    ///
    /// The meter rises by exactly the work of that one hash, less than 2^41 in each count;
    /// [`bound`](crate::work::bound) bounds that work before hashing.
    ///
    /// Precondition: each count of the meter is at most 2^120.
    ///
    /// # Errors
    ///
    /// - `OutOfMemory`: scrypt could not allocate, or the caller lent less than the
    ///   [`need`](crate::scheme::Scheme::need) of the setting's scheme. The meter counts only the allocations that
    ///   succeeded. No other method needs memory.
    pub fn matches<M: Memory>(
        &self,
        memory: &mut M,
        password: &Password,
        meter: &mut Meter,
    ) -> Result<bool, HashFault>
        requires { HasRoom meter.old }
        ensures verdict { IfOk result (λ verdict. IsTrue verdict ↔ (crypt password.now self.now.setting ≡ self.now.text)) }
        ensures fits { IfOk result (λ verdict. IsTrue verdict ↔ Fits password.now self.now.text) }
        ensures metered { IsMetered meter.old password.now self.now.setting meter.new result }
        ensures spelled { Spells self.now.text self.now.setting }
        ensures enough { AreEnough (M.IsEnough memory.old) self.now.setting.scheme → IsOk result }
        ensures kept { (other : ScryptParams) → M.IsEnough memory.old other → M.IsEnough memory.new other }
    {
        let hashed = hash_by(memory, password, &self.setting, meter)?;
        Ok(same_bytes(hashed.text(), self.text))
    }
}

/// A field of a password file, by its kind.
#[derive(Drop)]
pub enum StoredField<'a> {
    /// An empty field, which holds no hash.
    Empty,
    /// A locked field, which begins with `!` or `*`: no password matches it.
    Locked,
    /// A stored hash.
    Hash(StoredHash<'a>),
}

impl<'a> StoredField<'a> {
    /// Returns the field by its kind: empty, locked if it begins with `!` or `*`, and otherwise a stored hash.
    ///
    /// # Errors
    ///
    /// For a field that is neither empty nor locked, the first rule that it breaks as a setting, in the order of
    /// [`SettingFault`].
    #[tactic(auto, using(crate::proofs::Refusals::one_reading))]
    pub fn read(field: &'a [u8]) -> Result<StoredField<'a>, SettingFault>
        ensures reading { IsFieldReading field.now result }
        ensures one_reading { IsReadOneWay field.now }
    {
        match field {
            [] => Ok(StoredField::Empty),
            [b'!' | b'*', ..] => Ok(StoredField::Locked),
            _ => match StoredHash::read(field) {
                Ok(stored) => Ok(StoredField::Hash(stored)),
                Err(fault) => Err(fault),
            },
        }
    }
}
