ghost use Rattle.std.specs.Prelude.{◌≡◌};
ghost use Rattle.std.proofs.Common.{rules};
ghost use Rattle.listing_lines.specs.Numbers.{number_of as listing_number, layer_of as listing_layer, place_of as listing_place};
ghost use Rattle.listing_lines.specs.declared.faults.ListingFault.TheVariants.{OfSchedule};

use phase::faults::{Fault, Layer};
use schedule::faults::{PlacedFault, ScheduleFault};

/// Why a listing is refused.
#[derive(Clone, Copy, PartialEq, Eq, Debug)]
pub enum ListingFault {
    /// The caller's space is smaller than the longest listing.
    Space,
    /// The schedule is refused.
    OfSchedule(ScheduleFault),
}

impl From<ScheduleFault> for ListingFault {
    ghost from_gives = { λ fault r. r ≡ OfSchedule fault };

    fn from(fault: ScheduleFault) -> ListingFault {
        Self::OfSchedule(fault)
    }
}

impl Fault for ListingFault {
    ghost number_of = { listing_number };

    ghost layer_of = { listing_layer };

    fn number(self) -> u8 {
        match self {
            ListingFault::Space => 52,
            ListingFault::OfSchedule(fault) => fault.number(),
        }
    }

    fn layer(self) -> Layer {
        match self {
            ListingFault::Space => Layer::Listing,
            ListingFault::OfSchedule(fault) => fault.layer(),
        }
    }

    ghost two_digits = { Prim.search rules };
}

impl PlacedFault for ListingFault {
    ghost place_of = { listing_place };

    fn place(self) -> u16 {
        match self {
            ListingFault::Space => 0,
            ListingFault::OfSchedule(fault) => fault.place(),
        }
    }
}
