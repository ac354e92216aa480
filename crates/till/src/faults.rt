ghost use Rattle.std.proofs.Common.{rules};
ghost use Rattle.till.specs.Numbers.{till_number, till_layer};

use phase::faults::{Fault, Layer};

/// Why the cells or the payout refuse a call.
#[derive(Clone, Copy, PartialEq, Eq, Debug)]
pub enum TillFault {
    /// The cell's number is above 7.
    NoCell,
    /// The cell would pass its limit.
    PastLimit,
    /// A payout is open already.
    AlreadyOpen,
    /// A payout of no coins.
    NoCoins,
    /// No payout is open.
    NoneOpen,
    /// All coins of the payout have dropped.
    NoneLeft,
    /// The cell holds fewer coins than are to be paid out.
    TooFew,
}

impl Fault for TillFault {
    ghost number_of = { till_number };

    ghost layer_of = { till_layer };

    fn number(self) -> u8 {
        match self {
            TillFault::NoCell => 21,
            TillFault::PastLimit => 23,
            TillFault::AlreadyOpen => 31,
            TillFault::NoCoins => 32,
            TillFault::NoneOpen => 33,
            TillFault::NoneLeft => 34,
            TillFault::TooFew => 35,
        }
    }

    fn layer(self) -> Layer {
        match self {
            TillFault::NoCell | TillFault::PastLimit => Layer::Cells,
            TillFault::AlreadyOpen
            | TillFault::NoCoins
            | TillFault::NoneOpen
            | TillFault::NoneLeft
            | TillFault::TooFew => Layer::Payout,
        }
    }

    ghost two_digits = { Prim.search rules };
}
