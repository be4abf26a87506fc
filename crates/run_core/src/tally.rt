//! The counts of a run's lines, which decide its exit status.
ghost use Rattle.std.specs.Prelude.{◌≡◌, []};

/// The counts of a run's lines. A single password counts as one line.
#[derive(Clone, Copy, Debug, PartialEq, Eq)]
pub struct Tally {
    /// All lines, including refused ones.
    pub lines: u64,
    /// The refused lines.
    pub refused: u64,
    /// The lines with the verdict `no`, and the audited accounts that need care ([`Tally::status`]).
    pub misfits: u64,
}

impl Tally {
    ghost use Rattle.run_core.specs.Answers.{tally_of, tally_status};

    /// Returns a tally whose counts are all 0.
    pub fn new() -> Tally
        ensures { result ≡ tally_of [] }
    {
        Tally {
            lines: 0,
            refused: 0,
            misfits: 0,
        }
    }

    /// Returns the exit status of a run that ends with this tally.
    ///
    /// It is 1 if a line was refused or got the verdict `no`, or if an audited account needs care. Otherwise it is 0.
    /// An account needs care ([`Finding::needs_care`](crypt_core::finding::Finding::needs_care)) if its field is empty,
    /// malformed or of no scheme, or if its hash is over budget, dead or outdated.
    pub fn status(&self) -> u8
        ensures { result ≡ tally_status self.now }
    {
        if self.refused == 0 && self.misfits == 0 {
            0
        } else {
            1
        }
    }
}
