/// A payout that is open: coins drop out of its cell one by one until it is settled.
#[derive(Clone, Copy, PartialEq, Eq, Debug)]
pub struct Payout {
    /// The party that began it.
    pub party: u8,
    pub cell: u8,
    /// Coins still to drop.
    pub left: u32,
    pub dropped: u32,
}
