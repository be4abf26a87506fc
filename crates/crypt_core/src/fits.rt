//! Checks a password against a stored hash, as programs do with crypt(3): the password matches if hashing it with the
//! setting in the stored hash reproduces the stored hash.
ghost use Rattle.std.specs.Prelude.{◌≡◌, ◌↔◌, Err, IsTrue, IfOk};
ghost use Rattle.prims_core.specs.Meter.{HasRoom};
ghost use Rattle.crypt_core.specs.declared.setting.fault.SettingFault.{SettingFault as Refusal};
ghost use Rattle.crypt_core.specs.Fits.{Compares, Fits};
ghost use Rattle.crypt_core.specs.Refusals.{IsRefused};
ghost use Rattle.crypt_core.specs.Settings.{SettingValue, Spells};
ghost use Rattle.crypt_core.specs.Work.{work, work_limit, IsBelow};

use crate::hash::HashFault;
use crate::password::Password;
use crate::setting::SettingFault;
use crate::stored::StoredHash;
use prims_core::meter::Meter;
use std::alloc::Global;
use thiserror::Error;

/// Why a password can't be compared with a stored hash.
#[derive(Clone, Copy, Debug, PartialEq, Eq, Drop, Error)]
#[error("{}", self.text())]
pub enum FitFault {
    /// The stored hash has no valid setting. The value is the first rule of a setting that the stored hash breaks.
    Setting(SettingFault),
    /// scrypt could not allocate. No other method allocates.
    OutOfMemory,
}

impl FitFault {
    ghost use Rattle.crypt_core.specs.Faults.{fit_fault_text};

    /// Returns the message of the error.
    pub fn text(&self) -> &'static str
        ensures { result.now ≡ fit_fault_text self.now }
    {
        match self {
            FitFault::Setting(fault) => fault.text(),
            FitFault::OutOfMemory => HashFault::OutOfMemory.text(),
        }
    }
}

impl From<SettingFault> for FitFault {
    ghost use Rattle.crypt_core.specs.declared.fits.FitFault.TheVariants.{Setting};

    ghost from_gives = { λ fault outer. outer ≡ Setting fault };

    fn from(fault: SettingFault) -> FitFault {
        FitFault::Setting(fault)
    }
}

impl From<HashFault> for FitFault {
    ghost use Rattle.crypt_core.specs.declared.fits.FitFault.TheVariants.{OutOfMemory};

    ghost from_gives = { λ _ fault. fault ≡ OutOfMemory };

    fn from(fault: HashFault) -> FitFault {
        match fault {
            HashFault::OutOfMemory => FitFault::OutOfMemory,
        }
    }
}

/// Returns true exactly if hashing the password with the setting in the stored hash reproduces the stored hash.
///
/// All bytes count, so a stored hash that is not in canonical form matches no password: for example `$6$rounds=10$..`,
/// whose rounds are clamped to 1000. The meter rises by exactly the work of that one hash, less than 2^41 in each
/// count; [`bound`](crate::work::bound) bounds that work before hashing.
///
/// Precondition: each count of the meter is at most 2^120.
///
/// # Errors
///
/// - `Setting`: the stored hash has no valid setting. The error is the first rule that it breaks, and the meter is
///   unchanged.
/// - `OutOfMemory`: scrypt could not allocate. The meter counts only the allocations that succeeded. No other method
///   allocates.
pub fn fits(
    alloc: Global,
    password: &Password,
    stored: &[u8],
    meter: &mut Meter,
) -> Result<bool, FitFault>
    requires { HasRoom meter.old }
    ensures verdict { IfOk result (λ verdict. IsTrue verdict ↔ Fits password.now stored.now) }
    ensures compared { Compares password.now stored.now meter.old meter.new result }
    ensures below { (kept : SettingValue) → Spells stored.now kept → IsBelow (work password.now kept) work_limit }
    ensures each_refusal { (fault : Refusal) → IsRefused stored.now fault → result ≡ Err (FitFault.Setting fault) }
{
    let mut heap = alloc;
    Ok(StoredHash::read(stored)?.matches(&mut heap, password, meter)?)
}
