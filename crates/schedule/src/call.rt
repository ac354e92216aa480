/// A call of a rig and its numbers. A variant with one number has the party in it.
#[derive(Clone, Copy, PartialEq, Eq, Debug)]
pub enum Call {
    RequestRead(u8),
    RequestWrite(u8),
    Advance(u8),
    Leave(u8),
    /// What the cell holds is asked for.
    Look { party: u8, cell: u8 },
    /// The amount is added to the cell.
    Fill { party: u8, cell: u8, amount: u8 },
    /// A payout of so many coins out of the cell is opened.
    Begin { party: u8, cell: u8, coins: u8 },
    /// One coin of the open payout drops.
    Drop(u8),
    /// The open payout ends.
    Settle(u8),
}
