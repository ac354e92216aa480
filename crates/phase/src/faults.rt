ghost use Rattle.std.specs.Prelude.{◌≡◌, ◌<◌, ℕ};
ghost use Rattle.std.proofs.Common.{rules};
ghost use Rattle.phase.specs.Numbers.{lock_number, lock_layer, open_number, open_layer};

/// The part of the system that gave a refusal. A fault that is passed upward keeps its layer.
#[derive(Clone, Copy, PartialEq, Eq, Debug)]
pub enum Layer {
    Opening,
    Lock,
    Rig,
    Cells,
    Payout,
    Schedule,
    Listing,
}

/// A refusal: it has a number, and names the layer that gave it.
pub trait Fault: Copy {
    ghost use Rattle.phase.specs.declared.faults.Layer.{Layer};

    ghost number_of: { Self → ℕ };

    ghost layer_of: { Self → Layer };

    fn number(self) -> u8
        ensures { result ≡ number_of self };

    fn layer(self) -> Layer
        ensures { result ≡ layer_of self };

    // Two digits write the number.
    ghost two_digits: { (fault : Self) → number_of fault < 100 };
}

/// Why a lock refuses a call.
#[derive(Clone, Copy, PartialEq, Eq, Debug)]
pub enum LockFault {
    /// The call does not fit the party's standing, or the lock has no such party.
    Unfit,
}

impl Fault for LockFault {
    ghost number_of = { lock_number };

    ghost layer_of = { lock_layer };

    fn number(self) -> u8 {
        match self {
            LockFault::Unfit => 12,
        }
    }

    fn layer(self) -> Layer {
        match self {
            LockFault::Unfit => Layer::Lock,
        }
    }

    ghost two_digits = { Prim.search rules };
}

/// Why an opening is refused.
#[derive(Clone, Copy, PartialEq, Eq, Debug)]
pub enum OpenFault {
    /// The party count is 0 or above 32.
    Count,
}

impl Fault for OpenFault {
    ghost number_of = { open_number };

    ghost layer_of = { open_layer };

    fn number(self) -> u8 {
        match self {
            OpenFault::Count => 1,
        }
    }

    fn layer(self) -> Layer {
        match self {
            OpenFault::Count => Layer::Opening,
        }
    }

    ghost two_digits = { Prim.search rules };
}
