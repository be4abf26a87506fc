//! Makes settings from a method, rounds and a salt.

ghost use Rattle.std.specs.Prelude.{◌≡◌, ℕ, ◌↔◌, Some, IsOk, IfOk, IfErr, OnOk};
ghost use Rattle.crypt_core.specs.declared.setting.fault.MakeFault.{MakeFault as Fault};
ghost use Rattle.crypt_core.specs.Schemes.{method_of};
ghost use Rattle.crypt_core.specs.MadeSettings.{BreaksMake, IsMakeRefused, made_scheme, salted};
ghost use Rattle.crypt_core.specs.Private.Parts.{TakesSalt};

use super::fault::MakeFault;
use super::{Setting, in_alphabet};
use crate::made_salt::{made_salt_length, salt_of};
use crate::method::{Method, SCRYPT_SALT_LIMIT};
use crate::scheme::Scheme;
use arrayvec::ArrayVec;

impl Setting {
    /// Returns the setting of a method with these rounds and a given salt.
    ///
    /// `cost` (the number after `-R`) gives the rounds, as [`Scheme::made`] takes them. The salt has characters of
    /// crypt's alphabet, at least one and at most as many as the method keeps (8, 16, 16 or 86).
    ///
    /// For example, the setting of sha512crypt with rounds of 1, which are clamped, and the salt `ab` is
    /// `$6$rounds=1000$ab`.
    ///
    /// # Errors
    ///
    /// The first of these errors that applies.
    ///
    /// - `SaltLength`: the salt is empty, or has more characters than the method keeps.
    /// - `SaltCharacter`: the salt has a byte outside crypt's alphabet.
    /// - `Cost`: the method does not accept the rounds.
    pub fn make(method: Method, cost: u32, salt: &[u8]) -> Result<Setting, MakeFault>
        ensures made { IfOk result (λ setting. setting ≡ record { scheme = made_scheme method cost; salt = salt.now }) }
        ensures accepted { IsOk result ↔ ((fault : Fault) → ¬ BreaksMake method cost (Some salt.now) fault) }

        ensures refused { IfErr result (IsMakeRefused method cost (Some salt.now)) }
        ensures each_refusal { (fault : Fault) → IsMakeRefused method cost (Some salt.now) fault → result ≡ Err fault }
    {
        match given_salt(method, salt) {
            Ok(salt) => {
                let scheme = Scheme::made(method, cost)?;
                Ok(Setting { scheme, salt })
            }
            Err(fault) => Err(fault),
        }
    }

    /// Returns the setting of a scheme with a new salt, generated from three random numbers.
    ///
    /// The salt has [`made_salt_length`] characters.
    pub fn salted(scheme: Scheme, numbers: [u64; 3]) -> Setting
        ensures { result ≡ salted scheme numbers }
    {
        let salt = salt_of(numbers, made_salt_length(scheme.method()));
        Setting {
            scheme,
            salt: ArrayVec::try_from(salt.as_slice()).unwrap(),
        }
    }
}

// Returns a copy of the salt, or the error of the first rule that the salt breaks.
fn given_salt(method: Method, salt: &[u8]) -> Result<ArrayVec<u8, SCRYPT_SALT_LIMIT>, MakeFault>
    ensures kept { IfOk result (λ kept. kept.items ≡ salt.now) }
    ensures ok { OnOk result (TakesSalt method salt.now) }
    ensures err { IfErr result (λ fault. (cost : ℕ) → IsMakeRefused method cost (Some salt.now) fault) }
{
    if salt.is_empty() || salt.len() > method.row().salt_limit {
        return Err(MakeFault::SaltLength);
    }
    if !in_alphabet(salt) {
        return Err(MakeFault::SaltCharacter);
    }
    Ok(ArrayVec::try_from(salt).unwrap())
}
