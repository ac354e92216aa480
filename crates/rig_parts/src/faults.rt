ghost use Rattle.std.specs.Prelude.{◌≡◌};
ghost use Rattle.std.proofs.Common.{rules};
ghost use Rattle.rig_parts.specs.Numbers.{rig_number, rig_layer};
ghost use Rattle.rig_parts.specs.declared.faults.RigFault.TheVariants.{OfLock, OfTill};

use phase::faults::{Fault, Layer, LockFault};
use till::faults::TillFault;

/// Why a rig refuses a call. A fault of the lock, of the cells or of the payout is carried whole.
#[derive(Clone, Copy, PartialEq, Eq, Debug)]
pub enum RigFault {
    /// The rig has no such party.
    NoParty,
    OfLock(LockFault),
    /// A leave while a payout is open.
    Paying,
    OfTill(TillFault),
}

impl From<LockFault> for RigFault {
    ghost from_gives = { λ fault r. r ≡ OfLock fault };

    fn from(fault: LockFault) -> RigFault {
        Self::OfLock(fault)
    }
}

impl From<TillFault> for RigFault {
    ghost from_gives = { λ fault r. r ≡ OfTill fault };

    fn from(fault: TillFault) -> RigFault {
        Self::OfTill(fault)
    }
}

impl Fault for RigFault {
    ghost number_of = { rig_number };

    ghost layer_of = { rig_layer };

    fn number(self) -> u8 {
        match self {
            RigFault::NoParty => 11,
            RigFault::OfLock(fault) => fault.number(),
            RigFault::Paying => 13,
            RigFault::OfTill(fault) => fault.number(),
        }
    }

    fn layer(self) -> Layer {
        match self {
            RigFault::NoParty | RigFault::Paying => Layer::Rig,
            RigFault::OfLock(fault) => fault.layer(),
            RigFault::OfTill(fault) => fault.layer(),
        }
    }

    ghost two_digits = { Prim.search rules };
}
