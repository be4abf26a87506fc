//! Audits of stored fields. An audit needs no password and computes no hash.
ghost use Rattle.std.specs.Prelude.{◌≡◌};
ghost use Rattle.crypt_core.specs.Findings.{Finds};
ghost use Rattle.run_core.specs.Audits.{standing_text};
ghost use Rattle.run_core.specs.JobOptions.{given_budget};
ghost use Rattle.run_core.specs.Runs.{no_numbers};

use crate::job::Job;
use crypt_core::finding::Finding;
use crypt_core::standing::Standing;
use rand_core::Rng;

/// Returns what an audit finds in a field, given the job's scheme and budget.
///
/// If the job has no budget, the function passes 0 to [`Finding::of`], which then uses the budget of the scheme.
pub(crate) fn audit(job: &Job, field: &[u8]) -> Finding
    ensures { Finds job.now.maker.scheme (given_budget job.now) field.now result }
{
    Finding::of(field, &job.maker.scheme(), job.budget.unwrap_or(0))
}

/// Returns the text that an audit prints for a standing.
pub(crate) fn standing_text(standing: Standing) -> &'static [u8]
    ensures { result.now ≡ standing_text standing }
{
    match standing {
        Standing::Current => b"current",
        Standing::Outdated => b"outdated",
        Standing::Dead => b"dead",
        Standing::OverBudget => b"over budget",
    }
}

/// A generator of zeros for the run of an audit, which never draws a number from it.
#[derive(Drop)]
pub(crate) struct NoNumbers;

impl Rng for NoNumbers {
    ghost stream = { λ _. no_numbers };

    fn next_u32(&mut self) -> u32 {
        0
    }

    fn next_u64(&mut self) -> u64 {
        0
    }

    fn fill_bytes(&mut self, dst: &mut [u8]) {
        dst.fill(0)
    }
}
