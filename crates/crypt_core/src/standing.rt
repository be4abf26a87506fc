//! The standing of a stored hash, given the scheme of new hashes and a budget. It takes no password and hashes nothing.

ghost use Rattle.std.specs.Prelude.{◌≡◌, ◌≢◌, ◌↔◌, ◌≤◌, ℕ, List, IsTrue};
ghost use Rattle.crypt_core.specs.Fits.{Fits};
ghost use Rattle.crypt_core.specs.Policies.{policy_limit};
ghost use Rattle.crypt_core.specs.Standings.{HasStanding, IsAbove, IsOverBudget, greatest_cost};
ghost use Rattle.crypt_core.specs.Work.{cost};

use crate::password::PASSWORD_LIMIT;
use crate::scheme::Scheme;
use crate::stored::StoredHash;
use crate::work::cost;

/// The standing of a stored hash: the first of these variants that applies.
#[derive(Clone, Copy, Debug, PartialEq, Eq)]
pub enum Standing {
    /// Hashing a password with the hash's setting can cost more than the budget. With a budget of 0, which means the
    /// audit budget ([`Scheme::audit_budget`]), a hash is also over budget if even the empty password costs more than
    /// the policy's limit ([`Scheme::policy_limit`]).
    OverBudget,
    /// No password matches the hash, because it is not [whole](StoredHash::is_whole).
    Dead,
    /// The scheme of new hashes replaces the scheme of the hash's setting.
    Outdated,
    /// None of the above applies.
    Current,
}

impl StoredHash<'_> {
    /// Returns the greatest cost of hashing a password with the hash's setting, in bytes digested and mixed ([`cost`]):
    /// that of the longest password. [`Scheme::greatest_cost`] also takes the longest salt instead of the hash's own.
    pub fn greatest_cost(&self) -> u64
        ensures { result ≡ greatest_cost self.now.setting }
    {
        cost(self.setting(), PASSWORD_LIMIT)
    }

    /// Returns the standing when new hashes have the scheme `new`. A budget of 0 means the audit budget of that scheme.
    /// With that budget, a hash that is not over budget can be checked within the policy's
    /// [limit](Scheme::policy_limit), at least for the empty password.
    pub fn standing(&self, new: &Scheme, budget: u64) -> Standing
        ensures standing { HasStanding new.now budget self.now.text self.now.setting result }
        ensures checked { result ≢ Standing.OverBudget → budget ≡ 0 → cost self.now.setting 0 ≤ policy_limit new.now }
        ensures shut { result ≡ Standing.Dead → (password : List ℕ) → ¬ Fits password self.now.text }
    {
        if self.is_over_budget(new, budget) {
            Standing::OverBudget
        } else if !self.is_whole() {
            Standing::Dead
        } else if self.setting().scheme().is_outdated_by(new) {
            Standing::Outdated
        } else {
            Standing::Current
        }
    }

    // Returns whether the hash is over the budget, as `Standing::OverBudget` says.
    fn is_over_budget(&self, new: &Scheme, budget: u64) -> bool
        ensures { IsTrue result ↔ IsOverBudget new.now budget self.now.setting }
    {
        if self.greatest_cost() > new.chosen_budget(budget) {
            return true;
        }
        budget == 0 && cost(self.setting(), 0) > new.policy_limit()
    }
}

/// Returns whether the cost exceeds the budget. Without a budget, no cost does.
pub fn is_above(budget: Option<u64>, cost: u64) -> bool
    ensures { IsTrue result ↔ IsAbove budget cost }
{
    match budget {
        Some(budget) => cost > budget,
        None => false,
    }
}
