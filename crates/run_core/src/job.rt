//! The options of a run, and the maker of its settings. A maker uses one given salt for all hashes, or makes a new salt
//! from random numbers for each.
ghost use Rattle.std.specs.Prelude.{◌≡◌, ◌↔◌, ℕ, ◌^◌, ◌<◌, ◌≤◌, List, Err, IsOk, IfOk, IfErr, IsTrue, is_some, length, not};
ghost use Rattle.std.specs.Option.{option_map_or};
ghost use Rattle.crypt_core.specs.declared.setting.fault.MakeFault.{MakeFault as Fault};
ghost use Rattle.crypt_core.specs.MadeSettings.{BreaksMake, IsMakeRefused, made_scheme};
ghost use Rattle.crypt_core.specs.Passwords.{password_limit};
ghost use Rattle.crypt_core.specs.Schemes.{method_of};
ghost use Rattle.crypt_core.specs.Work.{cost};
ghost use Rattle.crypt_core.specs.Standings.{IsAbove};
ghost use Rattle.run_core.specs.JobOptions.{is_outdated};
ghost use Rattle.run_core.specs.Makers.{bytes_of, made_cost_by, next_setting, setting_by, stream_after};

use crypt_core::made_salt::{draw, made_salt_length};
use crypt_core::method::Method;
use crypt_core::scheme::Scheme;
use crypt_core::setting::{MakeFault, Setting};
use crypt_core::standing::is_above;
use crypt_core::stored::StoredHash;
use rand_core::Rng;
use std::marker::Model;

/// The options of a run: how it hashes passwords and what it prints.
#[derive(Drop)]
pub struct Job {
    /// The maker of the setting of each hash.
    pub maker: Maker,
    /// Whether a check hashes a matching password again if its stored hash is out of date.
    pub rehash: bool,
    /// Whether each output line shows the counts of its work. An audit shows none.
    pub work: bool,
    /// The maximum cost of a line, in bytes digested and mixed ([`cost`](crypt_core::work::cost)).
    ///
    /// It does not limit the hash of a single password. An audit compares it with the cost of each stored hash; if it
    /// is `None` or 0, the audit uses [the budget of its scheme](Scheme::audit_budget).
    pub budget: Option<u64>,
    /// The number of the first line. Messages about refused lines count from it.
    pub first_line: u32,
}

impl Job {
    /// Returns whether the cost exceeds the budget. Without a budget, no cost does.
    pub(crate) fn is_exceeded_by(&self, cost: u64) -> bool
        ensures { IsTrue result ↔ IsAbove self.now.budget cost }
    {
        is_above(self.budget, cost)
    }

    /// Returns whether a password that matches this stored hash is to be hashed again.
    ///
    /// That is so if the job asks for rehashes, and its scheme makes the stored hash out of date.
    pub(crate) fn is_outdated(&self, stored: &StoredHash<'_>) -> bool
        ensures { result ≡ is_outdated self.now stored.now.setting }
    {
        let scheme = stored.setting().scheme();
        self.rehash && scheme.is_outdated_by(&self.maker.scheme())
    }
}

/// The source of a single password.
#[derive(Drop)]
pub enum PasswordFrom {
    /// The bytes of an argument. They may be invalid as a password.
    Word(Vec<u8>),
    /// The first line of the input.
    Input,
}

/// A maker of settings: one setting for all hashes, or a scheme with a new salt for each hash.
#[derive(Drop)]
pub struct Maker {
    source: Source,
}

/// What a maker makes settings from.
#[derive(Drop)]
pub(crate) enum Source {
    /// One setting for all hashes.
    Setting(Setting),
    /// A scheme. Each setting gets a new salt.
    Scheme(Scheme),
}

impl Model for Maker {
    ghost use Rattle.run_core.specs.Makers.{Recipe, recipe_of};

    ghost Value = { Recipe };

    ghost view = { λ a. recipe_of a.source };
}

impl Maker {
    /// Returns a maker of settings with this method, these rounds, and this salt if there is one.
    ///
    /// Without a salt, each setting gets a new one. `cost` (the number after `-R`) gives the rounds, as
    /// [`Scheme::made`] takes them.
    ///
    /// # Errors
    ///
    /// The first broken rule, as [`Setting::make`] returns it:
    ///
    /// - `SaltLength`: the salt is empty, or has more characters than the method keeps.
    /// - `SaltCharacter`: the salt has a byte outside crypt's alphabet.
    /// - `Cost`: the method does not accept the rounds.
    pub fn new(method: Method, cost: u32, salt: Option<&[u8]>) -> Result<Maker, MakeFault>
        ensures made { IfOk result (λ maker. maker ≡ record { scheme = made_scheme method cost; salt = bytes_of salt.entry }) }
        ensures accepted { IsOk result ↔ ((fault : Fault) → ¬ BreaksMake method cost (bytes_of salt.entry) fault) }
        ensures refused { IfErr result (IsMakeRefused method cost (bytes_of salt.entry)) }
        ensures each_refusal { (fault : Fault) → IsMakeRefused method cost (bytes_of salt.entry) fault
            → result ≡ Err fault }
    {
        match salt {
            Some(salt) => match Setting::make(method, cost, salt) {
                Ok(setting) => Ok(Maker {
                    source: Source::Setting(setting),
                }),
                Err(fault) => Err(fault),
            },
            None => match Scheme::made(method, cost) {
                Ok(scheme) => Ok(Maker {
                    source: Source::Scheme(scheme),
                }),
                Err(fault) => Err(fault),
            },
        }
    }

    /// Returns the scheme of each setting.
    pub fn scheme(&self) -> Scheme
        ensures { result ≡ self.now.scheme }
    {
        match &self.source {
            Source::Setting(setting) => setting.scheme(),
            Source::Scheme(scheme) => *scheme,
        }
    }

    /// Returns whether each setting gets a new salt, which takes random numbers.
    pub fn draws(&self) -> bool
        ensures { result ≡ not (is_some self.now.salt) }
    {
        matches!(self.source, Source::Scheme(_))
    }

    /// Returns a setting with the given salt, or with a new salt made from the random numbers `words`.
    ///
    /// A new salt has 8 characters for md5crypt, 16 for SHA-crypt and 22 for scrypt.
    pub fn setting(&self, words: [u64; 3]) -> Setting
        ensures { result ≡ setting_by self.now words }
    {
        match &self.source {
            Source::Setting(setting) => setting.duplicate(),
            Source::Scheme(scheme) => Setting::salted(*scheme, words),
        }
    }

    /// Returns the maximum cost of hashing a password of `password_len` bytes with a setting of this maker.
    ///
    /// The cost counts bytes digested and mixed, and is below 2^42. The call neither draws nor hashes anything.
    /// Precondition: `password_len` is at most [`PASSWORD_LIMIT`](crypt_core::password::PASSWORD_LIMIT).
    pub fn cost(&self, password_len: usize) -> u64
        requires { password_len ≤ password_limit }
        ensures number { result ≡ made_cost_by self.now password_len }
        ensures each { (numbers : List ℕ) → cost (setting_by self.now numbers) password_len ≡ result }
        ensures below { result < 2 ^ 42 }
    {
        let (scheme, salt_len) = match &self.source {
            Source::Setting(setting) => (setting.scheme(), setting.salt().len()),
            Source::Scheme(scheme) => (*scheme, made_salt_length(scheme.method())),
        };
        scheme.cost(password_len, salt_len)
    }

    /// Returns the setting of the next hash. A new salt takes three random numbers; with a given salt none is drawn.
    pub(crate) fn next_setting<R: Rng>(&self, rng: &mut R) -> Setting
        ensures setting { result ≡ next_setting self.now (R.stream rng.old) }
        ensures stream { R.stream rng.new ≡ stream_after self.now (R.stream rng.old) }
    {
        match &self.source {
            Source::Setting(setting) => setting.duplicate(),
            Source::Scheme(scheme) => Setting::salted(*scheme, draw(rng)),
        }
    }
}
