//! Why a string is not a setting, and why a setting can't be made. Callers may rely on the texts of the messages.

ghost use Rattle.std.specs.Prelude.{◌≡◌};
ghost use Rattle.crypt_core.specs.Faults.{setting_fault_text, make_fault_text};

use kdf_core::params::ParamFault;
use thiserror::Error;

/// Why a string is not a setting. If several of these errors apply, the first of them is reported.
#[derive(Clone, Copy, Debug, PartialEq, Eq, Drop, Error)]
#[error("{}", self.text())]
pub enum SettingFault {
    /// The string has more than [`SETTING_LIMIT`](super::SETTING_LIMIT) bytes.
    TooLong,
    /// The string has a byte that is not graphic ASCII (0x21 to 0x7e), or one of `:`, `;`, `*`, `!` and the backslash.
    BadCharacter,
    /// The string begins with none of `$1$`, `$5$`, `$6$` and `$7$`.
    UnknownScheme,
    /// `rounds=` follows SHA-crypt's prefix, but no number and `$` come after it. A number begins with a digit from 1
    /// to 9.
    BadRounds,
    /// Fewer than 11 characters of crypt's alphabet follow scrypt's prefix; scrypt's cost part has 11.
    BadCost,
    /// N, r or p is outside scrypt's range (RFC 7914, section 2): log2 N, r or p is 0, or log2 N is 16r or more.
    ScryptRange,
    /// The product of N, r and p is above 8388608.
    AboveCeiling,
    /// scrypt's salt has more than [`SCRYPT_SALT_LIMIT`](crate::method::SCRYPT_SALT_LIMIT) bytes, or one outside
    /// crypt's alphabet.
    BadSalt,
}

impl SettingFault {
    /// Returns the message of the error.
    pub fn text(&self) -> &'static str
        ensures { result.now ≡ setting_fault_text self.now }
    {
        match self {
            SettingFault::TooLong => "setting too long",
            SettingFault::BadCharacter => "bad character",
            SettingFault::UnknownScheme => "unknown scheme",
            SettingFault::BadRounds => "bad rounds",
            SettingFault::BadCost => "bad cost",
            SettingFault::ScryptRange => ParamFault::Range.text(),
            SettingFault::AboveCeiling => ParamFault::AboveCeiling.text(),
            SettingFault::BadSalt => "bad salt",
        }
    }
}

/// Why a setting can't be made. If several of these errors apply, the first of them is reported.
#[derive(Clone, Copy, Debug, PartialEq, Eq, Drop, Error)]
#[error("{}", self.text())]
pub enum MakeFault {
    /// The salt is empty, or longer than the method keeps.
    SaltLength,
    /// The salt has a byte outside crypt's alphabet.
    SaltCharacter,
    /// The method does not accept the rounds. Only scrypt refuses some ([`Scheme::made`](crate::scheme::Scheme::made)).
    Cost,
}

impl MakeFault {
    /// Returns the message of the error.
    pub fn text(&self) -> &'static str
        ensures { result.now ≡ make_fault_text self.now }
    {
        match self {
            MakeFault::SaltLength => "salt length",
            MakeFault::SaltCharacter => "salt character",
            MakeFault::Cost => "cost",
        }
    }
}
