//! The limit on the cost of a login and of a new hash: the budget that the caller passes, or the limit of the policy
//! that the method and the rounds make. Nothing here hashes or allocates.
ghost use Rattle.std.specs.Prelude.{◌≡◌, ◌≢◌, ℕ, ◌≤◌};
ghost use Rattle.crypt_core.specs.Passwords.{password_limit};
ghost use Rattle.crypt_core.specs.Policies.{NeverFits};
ghost use Rattle.crypt_core.specs.declared.scheme.Scheme.{Scheme as Made};
ghost use Rattle.call_core.specs.Arguments.{IsSchemeMade, TakesNewRounds};
ghost use Rattle.call_core.specs.Limits.{AreFitted, ReportsRounds, Limits, allowance, limit_by, limit_bytes, limit_in, meant};

use crate::reading::new_scheme_of;
use crate::reason::Reason;
use crate::report::Report;
use crypt_core::password::PASSWORD_LIMIT;
use crypt_core::scheme::Scheme;

/// The budget that means the limit of the policy ([`Scheme::policy_limit`]): twice the cost of a new hash of a password
/// of 64 bytes, but at least a fixed number.
const DEFAULT_BUDGET: u64 = 0;

/// The limit on the cost of a login and of a new hash.
#[derive(Clone, Copy, Debug, PartialEq, Eq)]
pub enum Limit {
    /// The limit of the policy that the method and the rounds of a call make: [`Scheme::policy_limit`].
    Policy,
    /// The caller's own budget, in bytes digested and mixed.
    Bytes(u64),
}

impl Limit {
    /// Returns the limit that a budget means: 0 means the limit of the policy.
    pub fn of(budget: u64) -> Limit
        ensures { result ≡ meant budget }
    {
        if budget == DEFAULT_BUDGET {
            Limit::Policy
        } else {
            Limit::Bytes(budget)
        }
    }

    /// Returns the limit in bytes digested and mixed, for a policy whose new hashes have this scheme.
    pub fn bytes(self, scheme: &Scheme) -> u64
        ensures { result ≡ limit_bytes self scheme.now }
    {
        match self {
            Limit::Policy => scheme.policy_limit(),
            Limit::Bytes(budget) => budget,
        }
    }

    /// Returns the most that a hash of a password of `password_len` bytes may cost, for a policy whose new hashes have
    /// this scheme: the caller's own budget, or what `policy_allowance` returns.
    ///
    /// Precondition: `password_len` is at most [`PASSWORD_LIMIT`].
    pub(crate) fn allowance(self, scheme: &Scheme, password_len: usize) -> u64
        requires { password_len ≤ password_limit }
        ensures { result ≡ allowance self scheme.now password_len }
    {
        match self {
            Limit::Policy => policy_allowance(scheme, password_len),
            Limit::Bytes(budget) => budget,
        }
    }
}

/// Returns the report of the limit, of the length of the longest password whose new hash is within it, and of the
/// rounds of new hashes ([`Method::chosen_rounds`](crypt_core::method::Method::chosen_rounds)). If no new hash is
/// within the limit, the error is `OverBudget` and the cost is the limit.
pub fn report_limit(method: u32, rounds: u32, limit: Limit) -> Report
    ensures limits { Limits method rounds limit result }
    ensures used { (len : ℕ) → result.error ≡ 0 → len ≤ result.length → limit_in method rounds limit len ≡ result.cost }
{
    let scheme = match new_scheme_of(method, rounds) {
        Ok(scheme) => scheme,
        Err(reason) => return Report::from(reason),
    };
    let limit = limit.bytes(&scheme);
    match scheme.longest_within(limit) {
        Some(longest) => Report::of_rounds(scheme.rounds(), longest as u32, limit),
        None => Report::refused(Reason::OverBudget, limit),
    }
}

/// Returns the report of rounds with which a new hash of any password of `password_len` bytes is within the limit, and
/// of the cost of that hash.
///
/// The rounds are the policy's own, or fewer rounds of SHA-crypt. If no rounds are few enough, the error is
/// `OverBudget` and the cost is that of a hash with the policy's rounds.
pub fn report_rounds(password_len: usize, method: u32, rounds: u32, limit: Limit) -> Report
    ensures rounds { ReportsRounds password_len method rounds limit result }
    ensures fitted { (scheme : Made) → IsSchemeMade TakesNewRounds method rounds scheme → result.error ≡ 0
        → AreFitted password_len method (limit_bytes limit scheme) scheme result }
    ensures none { (scheme : Made) → IsSchemeMade TakesNewRounds method rounds scheme → password_len ≤ password_limit
        → result.error ≢ 0 → NeverFits scheme (limit_bytes limit scheme) password_len }
    ensures policy { (scheme : Made) → IsSchemeMade TakesNewRounds method rounds scheme → password_len ≤ password_limit
        → limit ≡ Limit.Policy → result.error ≡ 0 }
{
    if password_len > PASSWORD_LIMIT {
        return Report::from(Reason::PasswordTooLong);
    }
    let scheme = match new_scheme_of(method, rounds) {
        Ok(scheme) => scheme,
        Err(reason) => return Report::from(reason),
    };
    match scheme.fitted(limit.bytes(&scheme), password_len) {
        Some(fitted) => Report::of_rounds(fitted.rounds(), 0, fitted.new_cost(password_len)),
        None => Report::refused(Reason::OverBudget, scheme.new_cost(password_len)),
    }
}

// Returns the limit of the policy, or 0, which admits no hash, if a new hash of a password of this length would cost
// more than that limit.
fn policy_allowance(scheme: &Scheme, password_len: usize) -> u64
    requires { password_len ≤ password_limit }
    ensures { result ≡ limit_by scheme.now password_len }
{
    let limit = scheme.policy_limit();
    if scheme.new_cost(password_len) > limit {
        return 0;
    }
    limit
}
