//! Settings: the scheme and the salt that a string of crypt(5) spells.
//!
//! Every `Setting` is spelled by some string. [`Setting::read`] parses such a string, and `Setting::text` returns the
//! setting's one canonical form.

ghost use Rattle.std.specs.Prelude.{◌≡◌, ◌≤◌, ◌↔◌, length, All, Contains, IsTrue};
ghost use Rattle.prims_core.specs.Alphabet.{alphabet};
ghost use Rattle.crypt_core.specs.MethodLimits.{salt_limit};
ghost use Rattle.crypt_core.specs.Schemes.{IsScheme, method_of};
ghost use Rattle.crypt_core.specs.OutdatedSchemes.{is_outdated_by};

mod fault;
mod make;
mod read;
mod text;

use crate::method::{Method, SCRYPT_SALT_LIMIT};
use crate::scheme::Scheme;
use arrayvec::ArrayVec;
pub use fault::{MakeFault, SettingFault};
use prims_core::alphabet::value_of;
use std::marker::Model;

/// The most bytes of a setting or a stored hash.
pub const SETTING_LIMIT: usize = 384;

/// The characters with which SHA-crypt's `rounds=` field begins.
const ROUNDS_WORD: &[u8] = b"rounds=";

/// The number of characters of scrypt's cost part, which encodes N, r and p: one for log2 N, five for r and five for p.
pub(crate) const SCRYPT_PART_LEN: usize = 1 + 5 + 5;

/// The most bytes of a setting in canonical form: scrypt's prefix of 3 bytes, its cost part and its salt.
pub const CANONICAL_LIMIT: usize = 3 + SCRYPT_PART_LEN + SCRYPT_SALT_LIMIT;

/// The capacity in bytes of a buffer for a setting or a hash. The longest hash has 144 bytes
/// ([`HASH_LIMIT`](crate::hash::HASH_LIMIT)).
pub const TEXT_CAPACITY: usize = 160;

/// A setting: a scheme, and the salt that its method keeps.
#[derive(Debug, Drop)]
pub struct Setting {
    scheme: Scheme,
    salt: ArrayVec<u8, SCRYPT_SALT_LIMIT>,
}

impl Model for Setting {
    ghost use Rattle.std.specs.Prelude.{ℕ, List};
    ghost use Rattle.crypt_core.specs.Settings.{SettingValue, Spells};

    ghost Value = { SettingValue };

    ghost view = { λ a. record { scheme = a.scheme; salt = a.salt.items } };

    ghost invariant = { λ a. (text : List ℕ) × Spells text (record { scheme = a.scheme; salt = a.salt.items }) };
}

impl Setting {
    /// Returns the method.
    pub fn method(&self) -> Method
        ensures { result ≡ method_of self.now.scheme }
    {
        self.scheme.method()
    }

    /// Returns the scheme: the method with its rounds, or scrypt with its N, r and p.
    pub fn scheme(&self) -> Scheme
        ensures { result ≡ self.now.scheme }
    {
        self.scheme
    }

    /// Returns the salt as the setting spells it, not decoded. It has no more bytes than the method keeps.
    pub fn salt(&self) -> &[u8]
        ensures kept { result.now ≡ self.now.salt }
        ensures short { length result.now ≤ salt_limit (method_of self.now.scheme) }
    {
        self.salt.as_slice()
    }

    /// Returns a copy of the setting. The call allocates nothing.
    pub fn duplicate(&self) -> Setting
        ensures { result ≡ self.now }
    {
        Setting {
            scheme: self.scheme,
            salt: ArrayVec::try_from(self.salt.as_slice()).unwrap(),
        }
    }

    /// Returns whether a hash with this setting is out of date once new hashes have the setting `new`.
    ///
    /// Only the schemes decide that, as [`Scheme::is_outdated_by`] says. Salts make no difference.
    pub fn replaced_by(&self, new: &Setting) -> bool
        ensures { result ≡ is_outdated_by self.now.scheme new.now.scheme }
    {
        self.scheme.is_outdated_by(&new.scheme)
    }
}

/// Returns whether every byte is a character of crypt's alphabet.
pub fn in_alphabet(bytes: &[u8]) -> bool
    ensures { IsTrue result ↔ All (Contains alphabet) bytes.now }
{
    for byte in bytes {
        if !is_in_alphabet(*byte) {
            return false;
        }
    }
    true
}

fn is_in_alphabet(byte: u8) -> bool
    ensures { IsTrue result ↔ Contains alphabet byte }
{
    value_of(byte).is_some()
}
