//! Schemes: a method with its rounds, or scrypt with its N, r and p, but without a salt. A scheme decides the work of a
//! hash for given lengths of password and salt ([`Scheme::bound`], [`Scheme::cost`]), and whether a newer scheme
//! replaces it.

ghost use Rattle.std.specs.Prelude.{◌≡◌, ◌+◌, ◌≤◌, ◌↔◌, IsOk, IfOk, IfErr, true, false};
ghost use Rattle.kdf_core.specs.Params.{IsAccepted};
ghost use Rattle.crypt_core.specs.MadeSettings.{TakesRounds, made_scheme, rounds_of};
ghost use Rattle.crypt_core.specs.OutdatedSchemes.{is_outdated_by};
ghost use Rattle.crypt_core.specs.Rounds.{IsRounds, default_rounds, clamped};
ghost use Rattle.crypt_core.specs.Schemes.{IsScheme, method_of};

use crate::method::Method;
use crate::setting::MakeFault;
use kdf_core::params::Params;
use std::marker::Model;

/// The most rounds of SHA-crypt (Drepper's specification). A setting with more rounds counts as one with this many.
pub const MAX_ROUNDS: u64 = 999_999_999;

/// The fewest rounds of SHA-crypt (Drepper's specification). A setting with fewer rounds counts as one with this many.
pub const MIN_ROUNDS: u64 = 1000;

/// The rounds of SHA-crypt if the setting has no `rounds=` field (Drepper's specification).
pub const DEFAULT_ROUNDS: u32 = 5000;

/// The fewest rounds from which [`Scheme::made`] makes a scheme of scrypt, apart from 0. The range is that of crypt(5).
const MIN_SCRYPT_ROUNDS: u32 = 6;

/// The most rounds from which [`Scheme::made`] makes a scheme of scrypt. The range is that of crypt(5).
const MAX_SCRYPT_ROUNDS: u32 = 11;

/// The rounds of scrypt that 0 stands for in [`Scheme::made`].
const DEFAULT_SCRYPT_ROUNDS: u32 = 7;

/// How much greater scrypt's log2 N is than its rounds, as [`Scheme::made`] takes them.
const LOG_ABOVE_ROUNDS: u32 = 7;

/// The block size r of every scheme of scrypt that [`Scheme::made`] makes.
const BLOCK_SIZE: u32 = 32;

/// The parallelization p of every scheme of scrypt that [`Scheme::made`] makes.
const PARTS: u32 = 1;

/// The rounds of SHA-crypt, from 1000 to 999999999: those of the setting's `rounds=` field, or 5000 without one.
#[derive(Clone, Copy, Debug, PartialEq, Eq)]
pub struct Rounds {
    count: u32,
    is_written: bool,
}

impl Model for Rounds {
    ghost use Rattle.crypt_core.specs.Rounds.{IsRounds, Rounds};

    ghost Value = { Rounds };

    ghost view = { λ a. record { count = a.count; is_written = a.is_written } };

    ghost invariant = { λ a. IsRounds (record { count = a.count; is_written = a.is_written }) };

    ghost inverse = { λ v. record { count = v.count; is_written = v.is_written } };
}

impl Rounds {
    /// Returns the rounds of a setting without a `rounds=` field: 5000.
    pub fn unwritten() -> Rounds
        ensures value { result ≡ record { count = default_rounds; is_written = false } }
        ensures in_range { IsRounds result }
    {
        Rounds {
            count: DEFAULT_ROUNDS,
            is_written: false,
        }
    }

    /// Returns the rounds of a `rounds=` field with this number, clamped to 1000..999999999.
    pub fn written(number: u64) -> Rounds
        ensures value { result ≡ record { count = clamped number; is_written = true } }
        ensures in_range { IsRounds result }
    {
        Rounds {
            count: number.clamp(MIN_ROUNDS, MAX_ROUNDS) as u32,
            is_written: true,
        }
    }

    /// Returns the number of rounds.
    pub fn count(&self) -> u32
        ensures count { result ≡ self.now.count }
        ensures in_range { IsRounds self.now }
    {
        self.count
    }

    /// Returns whether the setting has a `rounds=` field.
    pub fn is_written(&self) -> bool
        ensures written { result ≡ self.now.is_written }
        ensures in_range { IsRounds self.now }
    {
        self.is_written
    }
}

/// The digest function of SHA-crypt.
#[derive(Clone, Copy, Debug, PartialEq, Eq)]
pub enum Sha {
    /// SHA-256, in sha256crypt.
    Sha256,
    /// SHA-512, in sha512crypt.
    Sha512,
}

/// A method with its rounds, or scrypt with its N, r and p.
#[derive(Clone, Copy, Debug, PartialEq, Eq)]
pub enum Scheme {
    /// FreeBSD's md5crypt, whose number of rounds is fixed.
    Md5crypt,
    /// SHA-crypt over this digest, with its rounds.
    Shacrypt(Sha, Rounds),
    /// scrypt, with its N, r and p.
    Scrypt(Params),
}

impl Scheme {
    /// Returns the scheme of a method with these rounds.
    ///
    /// 0 stands for the method's default. SHA-crypt takes any other number, clamped by [`Rounds::written`], with a
    /// `rounds=` field. scrypt takes 6 to 11 (`N = 2^(rounds + 7)`, r = 32, p = 1). md5crypt ignores the rounds.
    ///
    /// # Errors
    ///
    /// - `Cost`: the method is scrypt, which does not take the number.
    pub fn made(method: Method, rounds: u32) -> Result<Scheme, MakeFault>
        ensures made { IfOk result (λ scheme. scheme ≡ made_scheme method rounds) }
        ensures in_range { IfOk result IsScheme }
        ensures accepted { IsOk result ↔ TakesRounds method rounds }
        ensures refused { IfErr result (λ fault. fault ≡ MakeFault.Cost) }
    {
        let field = if rounds == 0 {
            Rounds::unwritten()
        } else {
            Rounds::written(u64::from(rounds))
        };
        match (method, rounds) {
            (Method::Md5crypt, _) => Ok(Scheme::Md5crypt),
            (Method::Sha256crypt, _) => Ok(Scheme::Shacrypt(Sha::Sha256, field)),
            (Method::Sha512crypt, _) => Ok(Scheme::Shacrypt(Sha::Sha512, field)),
            (Method::Scrypt, 0) => Ok(Scheme::Scrypt(params_of(DEFAULT_SCRYPT_ROUNDS))),
            (Method::Scrypt, MIN_SCRYPT_ROUNDS..=MAX_SCRYPT_ROUNDS) => {
                Ok(Scheme::Scrypt(params_of(rounds)))
            }
            (Method::Scrypt, _) => Err(MakeFault::Cost),
        }
    }

    /// Returns the method of the scheme. The contract also states that SHA-crypt's rounds are in range, and that
    /// scrypt's parameters are accepted.
    pub fn method(&self) -> Method
        ensures method { result ≡ method_of self.now }
        ensures in_range { IsScheme self.now }
    {
        match self {
            Scheme::Md5crypt => Method::Md5crypt,
            Scheme::Shacrypt(sha, rounds) => {
                // The call of `count` gives the prover what the clause `in_range` says of SHA-crypt.
                prove!(u64::from(rounds.count()) <= MAX_ROUNDS);
                match sha {
                    Sha::Sha256 => Method::Sha256crypt,
                    Sha::Sha512 => Method::Sha512crypt,
                }
            }
            Scheme::Scrypt(params) => {
                // The call of `log_n` gives the prover what the clause `in_range` says of scrypt.
                prove!(params.log_n() > 0);
                Method::Scrypt
            }
        }
    }

    /// Returns the rounds from which [`Scheme::made`] makes such a scheme: SHA-crypt's own, log2 N - 7 for scrypt, and
    /// 0 for md5crypt, which ignores them.
    pub fn rounds(&self) -> u32
        ensures { result ≡ rounds_of self.now }
    {
        match self {
            Scheme::Md5crypt => 0,
            Scheme::Shacrypt(_, rounds) => rounds.count(),
            Scheme::Scrypt(params) => u32::from(params.log_n()).saturating_sub(LOG_ABOVE_ROUNDS),
        }
    }

    /// Returns whether a hash of this scheme is out of date once new hashes have the scheme `new`.
    ///
    /// The hash is out of date if `new` has another method, or the same method with more rounds or, for scrypt, a
    /// greater `N * r * p`. Whether a setting writes the rounds in a `rounds=` field makes no difference.
    pub fn is_outdated_by(&self, new: &Scheme) -> bool
        ensures { result ≡ is_outdated_by self.now new.now }
    {
        match (self, new) {
            (Scheme::Md5crypt, Scheme::Md5crypt) => false,
            (Scheme::Shacrypt(Sha::Sha256, old), Scheme::Shacrypt(Sha::Sha256, new))
            | (Scheme::Shacrypt(Sha::Sha512, old), Scheme::Shacrypt(Sha::Sha512, new)) => {
                old.count() < new.count()
            }
            (Scheme::Scrypt(old), Scheme::Scrypt(new)) => old.product() < new.product(),
            _ => true,
        }
    }
}

// Returns scrypt's parameters for these rounds: N = 2^(rounds + 7), r = 32 and p = 1.
fn params_of(rounds: u32) -> Params
    requires from { 6 ≤ rounds }
    requires to { rounds ≤ 11 }
    ensures value { result ≡ record { log_n = rounds + 7; r = 32; p = 1 } }
    ensures accepted { IsAccepted result }
{
    Params::new((rounds + LOG_ABOVE_ROUNDS) as u8, BLOCK_SIZE, PARTS).unwrap()
}
