//! Why the inputs of a run over several files are refused.

use cwr_share::{CwrFault, PayeeFault};
use line_split::LineFault;
use linked_works::WorksFault;
use std::alloc::AllocError;
use thiserror::Error;
use tis_tree::TisFault;

/// Why a run over several files has no statements: an input is refused, or memory was. A submitter goes by its place
/// among the names, from 0.
#[derive(Clone, Copy, Debug, PartialEq, Eq, Error)]
pub enum SubmittedFault {
    /// The table of territories is refused.
    #[error("the territories: {0}")]
    Tis(TisFault),
    /// The table of payees is refused.
    #[error("the payees: {0}")]
    Payee(PayeeFault),
    /// The table of works is refused, by itself or for what the registrations in force of its works come to.
    #[error("the works: {0}")]
    Works(WorksFault),
    /// The CWR file of a submitter cannot be read.
    #[error("the file of submitter {0} cannot be read")]
    Unreadable(usize),
    /// The CWR file of a submitter is refused.
    #[error("the registrations of submitter {0}: {1}")]
    Cwr(usize, CwrFault),
    /// The table of usage lines is refused.
    #[error("the usage lines: {0}")]
    Usage(LineFault),
    /// Memory was refused.
    #[error("out of room")]
    Room,
}

impl From<TisFault> for SubmittedFault {
    ghost use Rattle.std.specs.Prelude.{◌≡◌};
    ghost use Rattle.submitted_inputs.specs.Faults.{fault_of_tis};

    ghost from_gives = { λ fault given. given ≡ fault_of_tis fault };

    fn from(fault: TisFault) -> SubmittedFault {
        match fault {
            TisFault::Memory => SubmittedFault::Room,
            _ => SubmittedFault::Tis(fault),
        }
    }
}

impl From<PayeeFault> for SubmittedFault {
    ghost use Rattle.std.specs.Prelude.{◌≡◌};
    ghost use Rattle.submitted_inputs.specs.Faults.{fault_of_payees};

    ghost from_gives = { λ fault given. given ≡ fault_of_payees fault };

    fn from(fault: PayeeFault) -> SubmittedFault {
        match fault {
            PayeeFault::Memory => SubmittedFault::Room,
            _ => SubmittedFault::Payee(fault),
        }
    }
}

impl From<WorksFault> for SubmittedFault {
    ghost use Rattle.std.specs.Prelude.{◌≡◌};
    ghost use Rattle.submitted_inputs.specs.Faults.{fault_of_works};

    ghost from_gives = { λ fault given. given ≡ fault_of_works fault };

    fn from(fault: WorksFault) -> SubmittedFault {
        match fault {
            WorksFault::Memory => SubmittedFault::Room,
            _ => SubmittedFault::Works(fault),
        }
    }
}

impl From<LineFault> for SubmittedFault {
    ghost use Rattle.std.specs.Prelude.{◌≡◌};
    ghost use Rattle.submitted_inputs.specs.Faults.{fault_of_usage};

    ghost from_gives = { λ fault given. given ≡ fault_of_usage fault };

    fn from(fault: LineFault) -> SubmittedFault {
        match fault {
            LineFault::Memory => SubmittedFault::Room,
            _ => SubmittedFault::Usage(fault),
        }
    }
}

impl From<AllocError> for SubmittedFault {
    ghost use Rattle.std.specs.Prelude.{◌≡◌};
    ghost use Rattle.submitted_inputs.specs.declared.fault.SubmittedFault.TheVariants.{Room};

    ghost from_gives = { λ _ given. given ≡ Room };

    fn from(_: AllocError) -> SubmittedFault {
        SubmittedFault::Room
    }
}
