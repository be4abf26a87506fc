//! What an audit finds in a stored field without knowing any password.
ghost use Rattle.std.specs.Prelude.{◌≡◌, ℕ};
ghost use Rattle.crypt_core.specs.Findings.{Finds, JudgesHash, needs_care};
ghost use Rattle.crypt_core.specs.Refusals.{IsRefused};
ghost use Rattle.crypt_core.specs.Settings.{SettingValue, Spells};
ghost use Rattle.crypt_core.specs.StoredFields.{IsStored};
ghost use Rattle.crypt_core.specs.declared.scheme.Scheme.{Scheme as Made};

use crate::other_scheme::OtherScheme;
use crate::scheme::Scheme;
use crate::setting::SettingFault;
use crate::standing::Standing;
use crate::stored::{StoredField, StoredHash};

/// What an audit finds in a field.
#[derive(Clone, Copy, Debug, PartialEq, Eq)]
pub enum Finding {
    /// A stored hash: its scheme, the greatest cost of hashing a password with its setting, in bytes digested and
    /// mixed, and its standing.
    Hash {
        scheme: Scheme,
        most: u64,
        standing: Standing,
    },
    /// The field is empty.
    NoHash,
    /// The field begins with `!` or `*`.
    Locked,
    /// The field begins with `$` and is not a valid setting. The value is the first rule of a setting that the field
    /// breaks, and never `UnknownScheme`.
    Malformed(SettingFault),
    /// None of the above, but the field has the form of a scheme of crypt(5) that mkpasswd doesn't hash.
    Other(OtherScheme),
    /// None of the above, but the field begins with `$`.
    Unknown,
    /// None of the above: the field is a plain password, say, or a damaged hash.
    NoScheme,
}

impl Finding {
    /// Returns what an audit finds in a field when new hashes have the scheme `new`. A budget of 0 means the audit
    /// budget of that scheme, as in [`StoredHash::standing`]. The call hashes nothing and allocates nothing.
    pub fn of(field: &[u8], new: &Scheme, budget: u64) -> Finding
        ensures finds { Finds new.now budget field.now result }
        ensures judges { (kept : SettingValue) → Spells field.now kept → JudgesHash new.now budget field.now kept result }
    {
        match StoredField::read(field) {
            Ok(StoredField::Empty) => Finding::NoHash,
            Ok(StoredField::Locked) => Finding::Locked,
            Ok(StoredField::Hash(stored)) => Finding::of_hash(&stored, new, budget),
            Err(fault) => Finding::of_refused(field, fault),
        }
    }

    // Returns what an audit finds in a stored hash.
    fn of_hash(stored: &StoredHash<'_>, new: &Scheme, budget: u64) -> Finding
        ensures { JudgesHash new.now budget stored.now.text stored.now.setting result }
    {
        Finding::Hash {
            scheme: stored.setting().scheme(),
            most: stored.greatest_cost(),
            standing: stored.standing(new, budget),
        }
    }

    // Returns what an audit finds in a field that is not a valid setting for this reason.
    fn of_refused(field: &[u8], fault: SettingFault) -> Finding
        requires stored { IsStored field.now }
        requires refused { IsRefused field.now fault }
        ensures { (new : Made) → (budget : ℕ) → Finds new budget field.now result }
    {
        let has_prefix = field.starts_with(b"$");
        if has_prefix && fault != SettingFault::UnknownScheme {
            return Finding::Malformed(fault);
        }
        match OtherScheme::of(field) {
            Some(other) => Finding::Other(other),
            None if has_prefix => Finding::Unknown,
            None => Finding::NoScheme,
        }
    }

    /// Returns whether somebody should look at the account. It returns false if the hash is current, the field is
    /// locked, or the scheme is one that mkpasswd doesn't hash or doesn't know, and otherwise true.
    pub fn needs_care(&self) -> bool
        ensures { result ≡ needs_care self.now }
    {
        match self {
            Finding::Hash {
                standing: Standing::Current,
                ..
            }
            | Finding::Locked
            | Finding::Other(_)
            | Finding::Unknown => false,
            Finding::Hash { .. } | Finding::NoHash | Finding::NoScheme | Finding::Malformed(_) =>
                true,
        }
    }
}
