//! The audit of a stored field, which needs no password: is its hash within the budget, whole and up to date?
ghost use Rattle.std.specs.Prelude.{◌≡◌};
ghost use Rattle.prims_core.specs.Work.{no_work};
ghost use Rattle.call_core.specs.Audits.{Audits, ForeseesLogins, IsCurrent, Passes, audit_report, standing_report, with_scheme};

use crate::reading::new_scheme_of;
use crate::reason::Reason;
use crate::report::{NO_WORK, Report};
use crypt_core::finding::Finding;
use crypt_core::md5crypt::ROUNDS;
use crypt_core::scheme::Scheme;
use crypt_core::standing::Standing;

/// Audits a stored field against the policy that new hashes follow, and returns the report.
///
/// `method` and `rounds` ([`Method::chosen_rounds`](crypt_core::method::Method::chosen_rounds)) make the scheme of new
/// hashes. A budget of 0 means the audit's own budget: a login under the limit of the policy can check every hash
/// within it, at least with the empty password.
pub fn report_audit(field: &[u8], method: u32, rounds: u32, budget: u64) -> Report
    ensures audits { Audits field.now method rounds budget result }
    ensures current { Passes result → IsCurrent field.now method rounds budget }
    ensures passes { IsCurrent field.now method rounds budget → Passes result }
    ensures checked { ForeseesLogins field.now method rounds budget result }
    ensures idle { result.work ≡ no_work }
{
    match new_scheme_of(method, rounds) {
        Ok(scheme) => finding_report(&Finding::of(field, &scheme, budget)),
        Err(reason) => Report::from(reason),
    }
}

// Returns the report of what the audit found in the field.
fn finding_report(finding: &Finding) -> Report
    ensures report { result ≡ audit_report finding.now }
    ensures idle { result.work ≡ no_work }
{
    match *finding {
        Finding::Hash {
            scheme,
            most,
            standing,
        } => standing_report(standing, most).with_scheme(&scheme),
        Finding::NoHash => Report::from(Reason::NoHash),
        Finding::Locked => Report::from(Reason::Locked),
        Finding::Malformed(fault) => Report::from(Reason::from(fault)),
        Finding::Other(other) => Report {
            scheme: other.number(),
            ..Report::from(Reason::UnknownScheme)
        },
        Finding::Unknown => Report::from(Reason::UnknownScheme),
        Finding::NoScheme => Report::from(Reason::NoScheme),
    }
}

// Returns the report of a hash with this standing. `most` is the greatest cost of the hash.
fn standing_report(standing: Standing, most: u64) -> Report
    ensures { result ≡ standing_report standing most }
{
    match standing {
        Standing::OverBudget => Report::refused(Reason::OverBudget, most),
        Standing::Dead => Report::refused(Reason::Dead, most),
        Standing::Outdated => Report::found(true, most, NO_WORK),
        Standing::Current => Report::found(false, most, NO_WORK),
    }
}

impl Report {
    // Returns the report with the scheme added: its number, and its rounds, or N, r and p for scrypt.
    fn with_scheme(self, scheme: &Scheme) -> Report
        ensures { result ≡ with_scheme scheme.now self }
    {
        let numbered = Report {
            scheme: scheme.method().number(),
            ..self
        };
        match scheme {
            Scheme::Md5crypt => Report {
                rounds: ROUNDS,
                ..numbered
            },
            Scheme::Shacrypt(_, rounds) => Report {
                rounds: rounds.count(),
                ..numbered
            },
            Scheme::Scrypt(params) => Report {
                n: params.row_count(),
                r: params.r(),
                p: params.p(),
                ..numbered
            },
        }
    }
}
