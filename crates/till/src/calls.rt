ghost use Rattle.std.specs.Prelude.{◌≡◌, ◌+◌, ◌≤◌, if◌then◌else◌, Ok, Err, nat_lt};
ghost use Rattle.till.specs.Cells.{limit, is_open};
ghost use Rattle.till.specs.Holding.{TillTakes, holding, empty, looked, filled, begun_as, coin_dropped, settled};
ghost use Rattle.till.specs.declared.faults.TillFault.TheVariants.{NoCell, PastLimit};

use crate::faults::TillFault;
use crate::payout::Payout;
use crate::till::Till;

/// The most that a cell holds.
const LIMIT: u32 = 99_999_999;

impl Till {
    /// All cells at 0, and no payout open.
    pub fn empty() -> Till
        ensures { holding result ≡ empty }
    {
        Till {
            cells: [0; 8],
            payout: None,
        }
    }

    /// Whether a payout is open.
    pub fn is_paying(&self) -> bool
        ensures { result ≡ is_open self.now.payout }
    {
        self.payout.is_some()
    }

    /// What a cell holds.
    pub fn look(&self, cell: u8) -> Result<u32, TillFault>
        ensures { TillTakes (looked cell) self.now result self.now }
    {
        self.cells
            .get(usize::from(cell))
            .copied()
            .ok_or(TillFault::NoCell)
    }

    /// Adds to a cell, and answers its new reading.
    pub fn fill(&mut self, cell: u8, amount: u32) -> Result<u32, TillFault>
        ensures { TillTakes (filled cell amount) self.old result self.new }
    {
        let held = self.look(cell)?;
        let reading = risen(held, amount)?;
        self.cells[usize::from(cell)] = reading;
        Ok(reading)
    }

    /// Opens a payout of so many coins out of a cell, for the party.
    pub fn begin(&mut self, party: u8, cell: u8, coins: u32) -> Result<(), TillFault>
        ensures { TillTakes (begun_as party cell coins tt) self.old result self.new }
    {
        let held = self.look(cell)?;
        if self.is_paying() {
            return Err(TillFault::AlreadyOpen);
        }
        if coins == 0 {
            return Err(TillFault::NoCoins);
        }
        if held < coins {
            return Err(TillFault::TooFew);
        }
        self.payout = Some(Payout {
            party,
            cell,
            left: coins,
            dropped: 0,
        });
        Ok(())
    }

    /// Drops one coin of the open payout out of its cell, and answers the coins left.
    pub fn drop_coin(&mut self) -> Result<u32, TillFault>
        ensures { TillTakes coin_dropped self.old result self.new }
    {
        let payout = self.payout.ok_or(TillFault::NoneOpen)?;
        if payout.left == 0 {
            return Err(TillFault::NoneLeft);
        }
        let left = payout.left - 1;
        self.payout = Some(Payout {
            left,
            dropped: payout.dropped + 1,
            ..payout
        });
        self.cells[usize::from(payout.cell)] -= 1;
        Ok(left)
    }

    /// Ends the open payout, and answers the coins dropped and the coins left.
    pub fn settle(&mut self) -> Result<(u32, u32), TillFault>
        ensures { TillTakes settled self.old result self.new }
    {
        let payout = self.payout.take().ok_or(TillFault::NoneOpen)?;
        Ok((payout.dropped, payout.left))
    }
}

// The sum is made only where it does not pass the limit, so it cannot overflow.
fn risen(held: u32, amount: u32) -> Result<u32, TillFault>
    requires { held ≤ limit }
    ensures { result ≡ (if nat_lt limit (held + amount) then Err PastLimit else Ok (held + amount)) }
{
    if amount > LIMIT - held {
        return Err(TillFault::PastLimit);
    }
    Ok(held + amount)
}
