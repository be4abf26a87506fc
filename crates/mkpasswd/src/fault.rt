//! The errors that end the program early, each with its message and exit status. The message does not include the
//! program's name. A request for help or the version counts as an error with status 0.
ghost use Rattle.std.specs.Prelude.{◌≡◌, ◌≢◌};
ghost use Rattle.std.specs.IoError.{error_kind};
ghost use Rattle.clap.specs.Words.{kind_of};

use clap::error::ErrorKind;
use crypt_core::hash::HashFault;
use crypt_core::setting::MakeFault;
pub use run_core::fault::RunFault;
use std::alloc::AllocError;
use std::io;
use thiserror::Error;

/// Why the arguments after the program's name make no plan.
#[derive(Debug, Drop, Error)]
#[error("{}", self.text())]
pub enum UsageFault {
    /// `clap` refuses the arguments, or they ask for help or the version. `clap` has the message.
    #[error("{0}")]
    Parse(clap::Error),
    /// The value of `-m TYPE` names no method.
    Method,
    /// The salt is given twice, with `-S` and as an argument.
    TwoSalts,
    /// More than one of PASSWORD, `-s`, `--batch`, `--check` and `--audit` is given.
    TwoModes,
    /// The method does not accept the rounds or the given salt.
    Make(MakeFault),
    /// An allocation failed.
    OutOfMemory,
}

impl UsageFault {
    ghost use Rattle.mkpasswd.specs.Faults.{fault_row};
    ghost use Rattle.mkpasswd.specs.declared.fault.Fault.TheVariants.{Usage};

    /// Returns the exit status: 0 for help and the version, 2 for invalid arguments, 3 if an allocation failed.
    pub fn status(&self) -> u8
        ensures { result ≡ (fault_row (Usage self.now)).0 }
    {
        match self {
            UsageFault::Parse(error) => if error.use_stderr() { 2 } else { 0 },
            UsageFault::OutOfMemory => 3,
            _ => 2,
        }
    }

    /// Returns the message for users. It is empty for `Parse`, for which `clap` has the message.
    pub fn text(&self) -> &'static str
        ensures { result.now ≡ (fault_row (Usage self.now)).1 }
    {
        match self {
            UsageFault::Parse(_) => "",
            UsageFault::Method => "unknown method",
            UsageFault::TwoSalts => "two salts",
            UsageFault::TwoModes => "two modes",
            UsageFault::Make(fault) => fault.text(),
            UsageFault::OutOfMemory => HashFault::OutOfMemory.text(),
        }
    }
}

impl From<clap::Error> for UsageFault {
    ghost use Rattle.mkpasswd.specs.declared.fault.UsageFault.TheVariants.{Parse, OutOfMemory};
    ghost use Rattle.clap.specs.declared.error.kind.ErrorKind.TheVariants as kind;

    ghost from_gives = { λ error fault. (kind_of error ≡ kind.OutOfMemory → fault ≡ OutOfMemory)
        × (kind_of error ≢ kind.OutOfMemory → fault ≡ Parse error) };

    fn from(error: clap::Error) -> UsageFault {
        match error.kind() {
            ErrorKind::OutOfMemory => UsageFault::OutOfMemory,
            _ => UsageFault::Parse(error),
        }
    }
}

impl From<MakeFault> for UsageFault {
    ghost use Rattle.mkpasswd.specs.declared.fault.UsageFault.TheVariants.{Make};

    ghost from_gives = { λ fault outer. outer ≡ Make fault };

    fn from(fault: MakeFault) -> UsageFault {
        UsageFault::Make(fault)
    }
}

impl From<AllocError> for UsageFault {
    ghost use Rattle.mkpasswd.specs.declared.fault.UsageFault.TheVariants.{OutOfMemory};

    ghost from_gives = { λ _ fault. fault ≡ OutOfMemory };

    fn from(_error: AllocError) -> UsageFault {
        UsageFault::OutOfMemory
    }
}

/// The error that ends the program early.
#[derive(Debug, Drop)]
pub enum Fault {
    /// The arguments cannot be read as text, or the system returned no seed for the generator that the plan needs.
    Start,
    /// The arguments make no plan, or an allocation failed.
    Usage(UsageFault),
    /// The run ended with an error.
    Run(RunFault),
}

impl Fault {
    ghost use Rattle.mkpasswd.specs.Faults.{fault_row};

    /// Returns the exit status.
    ///
    /// It is 3 for [`Fault::Start`], and otherwise that of the usage error ([`UsageFault::status`]) or of the run's
    /// error ([`RunFault::status`]).
    pub fn status(&self) -> u8
        ensures { result ≡ (fault_row self.now).0 }
    {
        match self {
            Fault::Start => 3,
            Fault::Usage(fault) => fault.status(),
            Fault::Run(fault) => fault.status(),
        }
    }

    /// Returns the message for users. It is empty if `clap` has the message.
    pub fn text(&self) -> &'static str
        ensures { result.now ≡ (fault_row self.now).1 }
    {
        match self {
            Fault::Start => "start fault",
            Fault::Usage(fault) => fault.text(),
            Fault::Run(fault) => fault.text(),
        }
    }
}

impl From<io::Error> for Fault {
    ghost use Rattle.mkpasswd.specs.declared.fault.Fault.TheVariants.{Start, Usage};
    ghost use Rattle.mkpasswd.specs.declared.fault.UsageFault.TheVariants.{OutOfMemory};
    ghost use Rattle.std.specs.declared.io.ErrorKind.TheVariants as kind;

    ghost from_gives = { λ error fault. (error_kind error ≡ kind.OutOfMemory → fault ≡ Usage OutOfMemory)
        × (error_kind error ≢ kind.OutOfMemory → fault ≡ Start) };

    fn from(error: io::Error) -> Fault {
        match error.kind() {
            io::ErrorKind::OutOfMemory => Fault::Usage(UsageFault::OutOfMemory),
            _ => Fault::Start,
        }
    }
}

impl From<AllocError> for Fault {
    ghost use Rattle.mkpasswd.specs.declared.fault.Fault.TheVariants.{Usage};
    ghost use Rattle.mkpasswd.specs.declared.fault.UsageFault.TheVariants.{OutOfMemory};

    ghost from_gives = { λ _ fault. fault ≡ Usage OutOfMemory };

    fn from(_error: AllocError) -> Fault {
        Fault::Usage(UsageFault::OutOfMemory)
    }
}

impl From<UsageFault> for Fault {
    ghost use Rattle.mkpasswd.specs.declared.fault.Fault.TheVariants.{Usage};

    ghost from_gives = { λ fault outer. outer ≡ Usage fault };

    fn from(fault: UsageFault) -> Fault {
        Fault::Usage(fault)
    }
}

impl From<RunFault> for Fault {
    ghost use Rattle.mkpasswd.specs.declared.fault.Fault.TheVariants.{Run};

    ghost from_gives = { λ fault outer. outer ≡ Run fault };

    fn from(fault: RunFault) -> Fault {
        Fault::Run(fault)
    }
}
