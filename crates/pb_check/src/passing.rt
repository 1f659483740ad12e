//! What goes on if there is no fault, and ends with it otherwise.
ghost use Rattle.std.specs.Prelude.{◌≡◌, ◌<◌, true, None, Some, IfOk, Option};
ghost use Rattle.pb_check.specs.Faults.{Gives};
ghost use Rattle.pb_check.specs.Judging.{passes, unless};

use crate::fault::{CertificateFault, CheckError};

pub(crate) fn pass(fault: Option<CertificateFault>) -> Result<(), CheckError>
    ensures gives { Gives (λ _. true) result (passes fault) }
    ensures none { IfOk result (λ x. fault ≡ None) }
{
    match fault {
        None => Ok(()),
        Some(fault) => Err(CheckError::Fault(fault)),
    }
}

pub(crate) fn unless(holds: bool, fault: CertificateFault) -> Option<CertificateFault>
    ensures { result ≡ unless holds fault }
{
    if holds { None } else { Some(fault) }
}

// Goes on only if this holds.
pub(crate) fn need(holds: bool, fault: CertificateFault) -> Result<(), CheckError>
    ensures gives { Gives (λ _. true) result (passes (unless holds fault)) }
    ensures holds { IfOk result (λ x. holds ≡ true) }
{
    if holds {
        Ok(())
    } else {
        Err(CheckError::Fault(fault))
    }
}
