//! The policy that this project recommends: the rounds for each method, the cost limit of a login, and the budget of an
//! audit. The C interface and audits use them where the caller names none; the command has other defaults for hashing.

ghost use Rattle.std.specs.Prelude.{◌≡◌, ◌^◌, ◌<◌, ◌≤◌, length, false, true, IfNone, IfSome, IsSome};
ghost use Rattle.crypt_core.specs.MadeSettings.{TakesRounds};
ghost use Rattle.crypt_core.specs.MethodLimits.{salt_limit};
ghost use Rattle.crypt_core.specs.Policies.{IsLongestWithin, NeverFits, audit_budget, chosen_budget, chosen_rounds, fewer_rounds, fitted, fitting_rounds, greatest_cost_by, longest_round, new_cost, opening_bytes, policy_limit, recommended_rounds};
ghost use Rattle.crypt_core.specs.Passwords.{password_limit};
ghost use Rattle.crypt_core.specs.OutdatedSchemes.{is_outdated_by};
ghost use Rattle.crypt_core.specs.Rounds.{clamped};
ghost use Rattle.crypt_core.specs.Schemes.{IsScheme, method_of};
ghost use Rattle.crypt_core.specs.Settings.{SettingValue};
ghost use Rattle.crypt_core.specs.Standings.{greatest_cost};
ghost use Rattle.crypt_core.specs.Work.{cost};

use crate::made_salt::made_salt_length;
use crate::method::{Method, SHACRYPT_SALT_LIMIT};
use crate::password::PASSWORD_LIMIT;
use crate::scheme::{Rounds, Scheme, Sha};
use crate::work::shacrypt_bound;
use prims_core::counted::{Counted, CountedSha256, CountedSha512};

/// The recommended rounds of SHA-crypt. docs/SECURITY.md compares their work with other recommendations (Strength).
pub const RECOMMENDED_ROUNDS: u32 = 656_000;

/// The recommended rounds of scrypt, as `-R` takes them: N = 2^14, r = 32, p = 1.
const RECOMMENDED_SCRYPT_ROUNDS: u32 = 7;

/// The least limit of a policy, in bytes digested and mixed. With each method's recommended rounds, a new hash of a
/// password of 64 bytes costs less.
const LIMIT_FLOOR: u64 = 150_000_000;

/// The policy's limit is twice the cost of a new hash of a password of this length in bytes, if that is above the
/// floor.
const HALF_LIMIT_LEN: usize = 64;

impl Method {
    /// Returns the rounds that new hashes should have, as [`Scheme::made`] takes them: 656000 for SHA-crypt, 7 for
    /// scrypt, and 0 for md5crypt, whose rounds are fixed.
    pub fn recommended_rounds(self) -> u32
        ensures rounds { result ≡ recommended_rounds self }
        ensures taken { TakesRounds self result }
    {
        match self {
            Method::Md5crypt => 0,
            Method::Sha256crypt | Method::Sha512crypt => RECOMMENDED_ROUNDS,
            Method::Scrypt => RECOMMENDED_SCRYPT_ROUNDS,
        }
    }

    /// Returns `rounds`, or the recommended rounds if `rounds` is 0.
    pub fn chosen_rounds(self, rounds: u32) -> u32
        ensures { result ≡ chosen_rounds self rounds }
    {
        if rounds == 0 {
            self.recommended_rounds()
        } else {
            rounds
        }
    }
}

impl Scheme {
    /// Returns the cost of a new hash with this scheme for a password of `password_len` bytes.
    ///
    /// Precondition: `password_len` is at most [`PASSWORD_LIMIT`].
    pub fn new_cost(&self, password_len: usize) -> u64
        requires { password_len ≤ password_limit }
        ensures cost { result ≡ new_cost self.now password_len }
        ensures below { result < 2 ^ 42 }
        ensures in_range { IsScheme self.now }
    {
        self.cost(password_len, made_salt_length(self.method()))
    }

    /// Returns what a login or a new hash may cost under the policy that new hashes have this scheme: twice the cost of
    /// a new hash of a password of 64 bytes, and at least 150000000 bytes.
    pub fn policy_limit(&self) -> u64
        ensures limit { result ≡ policy_limit self.now }
        ensures admits { (kept : SettingValue) → kept.scheme ≡ self.now → length kept.salt ≤ salt_limit (method_of kept.scheme)
            → cost kept 0 ≤ result }
    {
        LIMIT_FLOOR.max(2 * self.new_cost(HALF_LIMIT_LEN))
    }

    /// Returns the length in bytes of the longest password whose new hash with this scheme costs at most `limit`, or
    /// `None` if even the empty password costs more.
    pub fn longest_within(&self, limit: u64) -> Option<usize>
        ensures { IsLongestWithin self.now limit result }
    {
        if self.new_cost(0) > limit {
            return None;
        }
        let mut within = 0;
        let mut above = PASSWORD_LIMIT + 1;
        'lengths: while above - within > 1 {
            let middle = (within + above) / 2;
            if self.new_cost(middle) > limit {
                above = middle;
            } else {
                within = middle;
            }
        }
        Some(within)
    }

    /// Returns the scheme for a new hash of a password of `password_len` bytes that costs at most `limit`, under a
    /// policy with this scheme, or `None` if there is none.
    ///
    /// The result is the policy's own scheme if a new hash with that is within the limit. Otherwise it is SHA-crypt
    /// with as many rounds as are sure to be within the limit: the limit less the bytes digested before the rounds,
    /// divided by the bytes of the longest round, but at least 1000. So the result never has more rounds than the
    /// policy, and it is never `None` if `limit` is at least the policy's own limit.
    ///
    /// Precondition: `password_len` is at most [`PASSWORD_LIMIT`].
    pub fn fitted(&self, limit: u64, password_len: usize) -> Option<Scheme>
        requires { password_len ≤ password_limit }
        ensures fitted { result ≡ fitted self.now limit password_len }
        ensures within { IfSome result (λ scheme. new_cost scheme password_len ≤ limit) }
        ensures own { new_cost self.now password_len ≤ limit → result ≡ Some self.now }
        ensures method { IfSome result (λ scheme. method_of scheme ≡ method_of self.now) }
        ensures kept { IfSome result (λ scheme. is_outdated_by self.now scheme ≡ false) }
        ensures none { IfNone result (NeverFits self.now limit password_len) }
        ensures policy { policy_limit self.now ≤ limit → IsSome result }
    {
        if self.new_cost(password_len) <= limit {
            return Some(*self);
        }
        fewer_rounds(self, limit, password_len)
    }

    /// Returns the greatest cost of a hash with this scheme, in bytes digested and mixed: that of the longest password
    /// and the longest salt that the method keeps. `StoredHash::greatest_cost` takes the salt of the hash instead.
    pub fn greatest_cost(&self) -> u64
        ensures { result ≡ greatest_cost_by self.now }
    {
        self.cost(PASSWORD_LIMIT, self.method().row().salt_limit)
    }

    /// Returns the budget of an audit when new hashes have this scheme: the greatest cost of a hash with the scheme,
    /// and at least that of sha512crypt with the recommended rounds, 1297572512 bytes.
    pub fn audit_budget(&self) -> u64
        ensures budget { result ≡ audit_budget self.now }
        ensures admits { (kept : SettingValue) → kept.scheme ≡ self.now → length kept.salt ≤ salt_limit (method_of kept.scheme)
            → greatest_cost kept ≤ result }
    {
        let recommended = Scheme::Shacrypt(
            Sha::Sha512,
            Rounds::written(u64::from(RECOMMENDED_ROUNDS)),
        );
        self.greatest_cost().max(recommended.greatest_cost())
    }

    /// Returns `budget`, or [`audit_budget`](Scheme::audit_budget) if `budget` is 0.
    pub fn chosen_budget(&self, budget: u64) -> u64
        ensures { result ≡ chosen_budget self.now budget }
    {
        if budget == 0 {
            self.audit_budget()
        } else {
            budget
        }
    }
}

// Returns SHA-crypt with the rounds that `fitting_rounds` gives for the limit, or `None` if the scheme isn't SHA-crypt
// or a new hash with those rounds costs more than the limit.
fn fewer_rounds(scheme: &Scheme, limit: u64, password_len: usize) -> Option<Scheme>
    requires { password_len ≤ password_limit }
    ensures { result ≡ fewer_rounds scheme.now limit password_len }
{
    let Scheme::Shacrypt(sha, _) = *scheme else {
        return None;
    };
    let fewer = Scheme::Shacrypt(sha, fitting_rounds(sha, limit, password_len));
    if fewer.new_cost(password_len) > limit {
        return None;
    }
    Some(fewer)
}

// Returns how many rounds are sure to be within the limit: the limit less the bytes digested before the rounds, divided
// by the bytes of the longest round, but at least 1000.
fn fitting_rounds(sha: Sha, limit: u64, password_len: usize) -> Rounds
    requires { password_len ≤ password_limit }
    ensures { result ≡ record { count = fitting_rounds sha limit password_len; is_written = true } }
{
    let password = password_len as u64;
    let left = limit.saturating_sub(opening_bytes(sha, password));
    Rounds::written(left / longest_round(sha, password))
}

// Returns a bound on the bytes that SHA-crypt digests before the rounds, in a new hash of a password of this length.
fn opening_bytes(sha: Sha, password: u64) -> u64
    requires { password ≤ password_limit }
    ensures { result ≡ opening_bytes sha password }
{
    let salt = SHACRYPT_SALT_LIMIT as u64;
    let work = match sha {
        Sha::Sha256 => shacrypt_bound::<CountedSha256>(0, password, salt),
        Sha::Sha512 => shacrypt_bound::<CountedSha512>(0, password, salt),
    };
    work.bytes
}

// Returns the bytes of the longest message of a SHA-crypt round, in a new hash of a password of this length.
fn longest_round(sha: Sha, password: u64) -> u64
    requires { password ≤ password_limit }
    ensures { result ≡ longest_round sha password }
{
    let digest = match sha {
        Sha::Sha256 => CountedSha256::LEN,
        Sha::Sha512 => CountedSha512::LEN,
    };
    digest as u64 + 2 * password + SHACRYPT_SALT_LIMIT as u64
}
