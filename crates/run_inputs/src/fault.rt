//! Why the inputs of a run are refused.

ghost use Rattle.std.specs.Prelude.{◌≡◌};
ghost use Rattle.run_inputs.specs.Faults.{fault_of_cwr, fault_of_payees, fault_of_tis, fault_of_usage, number_of_fault};
ghost use Rattle.run_inputs.specs.Faults.{place_of_fault};

use csv_table::FileFault;
use cwr_share::{CwrFault, PayeeFault};
use line_split::LineFault;
use std::alloc::AllocError;
use thiserror::Error;
use tis_tree::TisFault;

/// Why a run has no statements: an input is refused, or memory was.
#[derive(Clone, Copy, Debug, PartialEq, Eq, Error)]
pub enum Fault {
    /// The table of territories is refused.
    #[error("the territories: {0}")]
    Tis(TisFault),
    /// The CWR file is refused.
    #[error("the registrations: {0}")]
    Cwr(CwrFault),
    /// The table of usage lines is refused.
    #[error("the usage lines: {0}")]
    Usage(LineFault),
    /// Memory was refused.
    #[error("out of room")]
    Room,
    /// The table of payees is refused.
    #[error("the payees: {0}")]
    Payee(PayeeFault),
}

impl Fault {
    /// The fault's number: 1 to 5, in the order above.
    pub fn number(&self) -> u8
        ensures { result ≡ number_of_fault self.now }
    {
        match self {
            Fault::Tis(_) => 1,
            Fault::Cwr(_) => 2,
            Fault::Usage(_) => 3,
            Fault::Room => 4,
            Fault::Payee(_) => 5,
        }
    }

    /// The row or line of the fault within, where it is one's.
    pub fn place(&self) -> Option<u64>
        ensures { result ≡ place_of_fault self.now }
    {
        match self {
            Fault::Tis(fault) => fault.place(),
            Fault::Cwr(fault) => fault.place(),
            Fault::Usage(fault) => fault.place(),
            Fault::Room => None,
            Fault::Payee(fault) => fault.place(),
        }
    }
}

impl From<TisFault> for Fault {
    ghost use Rattle.std.specs.Prelude.{◌≡◌};
    ghost use Rattle.run_inputs.specs.Faults.{fault_of_tis};

    ghost from_gives = { λ fault given. given ≡ fault_of_tis fault };

    fn from(fault: TisFault) -> Fault {
        match fault {
            TisFault::Memory => Fault::Room,
            _ => Fault::Tis(fault),
        }
    }
}

impl From<CwrFault> for Fault {
    ghost use Rattle.std.specs.Prelude.{◌≡◌};
    ghost use Rattle.run_inputs.specs.Faults.{fault_of_cwr};

    ghost from_gives = { λ fault given. given ≡ fault_of_cwr fault };

    fn from(fault: CwrFault) -> Fault {
        match fault {
            CwrFault::Memory => Fault::Room,
            _ => Fault::Cwr(fault),
        }
    }
}

impl From<PayeeFault> for Fault {
    ghost use Rattle.std.specs.Prelude.{◌≡◌};
    ghost use Rattle.run_inputs.specs.Faults.{fault_of_payees};

    ghost from_gives = { λ fault given. given ≡ fault_of_payees fault };

    fn from(fault: PayeeFault) -> Fault {
        match fault {
            PayeeFault::Memory => Fault::Room,
            _ => Fault::Payee(fault),
        }
    }
}

impl From<LineFault> for Fault {
    ghost use Rattle.std.specs.Prelude.{◌≡◌};
    ghost use Rattle.run_inputs.specs.Faults.{fault_of_usage};

    ghost from_gives = { λ fault given. given ≡ fault_of_usage fault };

    fn from(fault: LineFault) -> Fault {
        match fault {
            LineFault::Memory => Fault::Room,
            _ => Fault::Usage(fault),
        }
    }
}

impl From<AllocError> for Fault {
    ghost use Rattle.std.specs.Prelude.{◌≡◌};
    ghost use Rattle.run_inputs.specs.declared.fault.Fault.TheVariants.{Room};

    ghost from_gives = { λ _ given. given ≡ Room };

    fn from(_: AllocError) -> Fault {
        Fault::Room
    }
}
