//! The errors that end a run, each with its message and exit status.
ghost use Rattle.std.specs.Prelude.{◌≡◌};

use crypt_core::hash::HashFault;
use crypt_core::password::PasswordFault;
use thiserror::Error;

/// The error that ends a run.
#[derive(Clone, Copy, Debug, PartialEq, Eq, Error)]
#[error("{}", self.text())]
pub enum RunFault {
    /// A read of the input failed.
    Read,
    /// A write or a flush of an output failed.
    Write,
    /// scrypt could not allocate memory.
    OutOfMemory,
    /// The run needs more I/O calls than its limit allows.
    Turns,
    /// The password is invalid.
    Password(PasswordFault),
}

impl RunFault {
    ghost use Rattle.run_core.specs.Faults.{run_row};

    /// Returns the exit status: 2 for an invalid password, and 3 for every other error.
    pub fn status(&self) -> u8
        ensures { result ≡ (run_row self.now).0 }
    {
        match self {
            RunFault::Read | RunFault::Write | RunFault::OutOfMemory | RunFault::Turns => 3,
            RunFault::Password(_) => 2,
        }
    }

    /// Returns the message to print.
    pub fn text(&self) -> &'static str
        ensures { result.now ≡ (run_row self.now).1 }
    {
        match self {
            RunFault::Read => "read fault",
            RunFault::Write => "write fault",
            RunFault::OutOfMemory => HashFault::OutOfMemory.text(),
            RunFault::Turns => "too many turns",
            RunFault::Password(fault) => fault.text(),
        }
    }
}

impl From<HashFault> for RunFault {
    ghost use Rattle.run_core.specs.declared.fault.RunFault.TheVariants.{OutOfMemory};

    ghost from_gives = { λ _ fault. fault ≡ OutOfMemory };

    fn from(fault: HashFault) -> RunFault {
        match fault {
            HashFault::OutOfMemory => RunFault::OutOfMemory,
        }
    }
}

impl From<PasswordFault> for RunFault {
    ghost use Rattle.run_core.specs.declared.fault.RunFault.TheVariants.{Password};

    ghost from_gives = { λ fault outer. outer ≡ Password fault };

    fn from(fault: PasswordFault) -> RunFault {
        RunFault::Password(fault)
    }
}
