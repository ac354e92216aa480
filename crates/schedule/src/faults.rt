ghost use Rattle.std.specs.Prelude.{◌≡◌, ℕ};
ghost use Rattle.std.proofs.Common.{rules};
ghost use Rattle.schedule.specs.Numbers.{word_number, word_layer, number_of as schedule_number, layer_of as schedule_layer, place_of as schedule_place};

use phase::faults::{Fault, Layer};

/// A refusal that names the word at fault.
pub trait PlacedFault: Fault {
    ghost place_of: { Self → ℕ };

    /// The place of the word at fault, 0 where the fault is of no one word.
    fn place(self) -> u16
        ensures { result ≡ place_of self };
}

/// Why a word of a schedule is refused.
#[derive(Clone, Copy, PartialEq, Eq, Debug)]
pub enum WordFault {
    /// No call has this action.
    Action,
    /// A bit below the party is not 0.
    Unused,
}

impl Fault for WordFault {
    ghost number_of = { word_number };

    ghost layer_of = { word_layer };

    fn number(self) -> u8 {
        match self {
            WordFault::Action => 43,
            WordFault::Unused => 44,
        }
    }

    fn layer(self) -> Layer {
        match self {
            WordFault::Action | WordFault::Unused => Layer::Schedule,
        }
    }

    ghost two_digits = { Prim.search rules };
}

/// Why a schedule is refused.
#[derive(Clone, Copy, PartialEq, Eq, Debug)]
pub enum ScheduleFault {
    /// More than 8,192 bytes, which are 4,096 words.
    TooLong,
    OddLength,
    /// The first word that is refused, by its place from 1.
    Word { place: u16, fault: WordFault },
}

impl Fault for ScheduleFault {
    ghost number_of = { schedule_number };

    ghost layer_of = { schedule_layer };

    fn number(self) -> u8 {
        match self {
            ScheduleFault::TooLong => 41,
            ScheduleFault::OddLength => 42,
            ScheduleFault::Word { place: _, fault } => fault.number(),
        }
    }

    fn layer(self) -> Layer {
        match self {
            ScheduleFault::TooLong | ScheduleFault::OddLength => Layer::Schedule,
            ScheduleFault::Word { place: _, fault } => fault.layer(),
        }
    }

    ghost two_digits = { Prim.search rules };
}

impl PlacedFault for ScheduleFault {
    ghost place_of = { schedule_place };

    fn place(self) -> u16 {
        match self {
            ScheduleFault::TooLong | ScheduleFault::OddLength => 0,
            ScheduleFault::Word { place, fault: _ } => place,
        }
    }
}
