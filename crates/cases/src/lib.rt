//! Worked examples. Each function below has a theorem for its contract, over the definitions that the contracts of the
//! calls cite; none does anything when it is called.
#![tactic(auto)]

ghost use Rattle.cases.specs.Examples.{ReadersAroundAWriter, ALoneWriterWraps, AReadRequestWraps, ThePhaseBitLetsAReaderIn, AnAwayPartyCannotAdvance};
ghost use Rattle.cases.specs.OnARig.{ReadersAroundAWriterOnARig, ALoneWriterWrapsOnARig, AReadRequestWrapsOnARig, ThePhaseBitLetsAReaderInOnARig};
ghost use Rattle.cases.specs.Payouts.{ALeaveWaitsForTheSettling, FourCoinsArePaidOut, AFullCellTakesNothing, AWaitingReaderIsToldOfAWriter};

pub mod both_locks;
pub mod on_pft;

/// Two readers and a writer: the one that asked before the posting goes first, the other waits for the writer.
#[tactic(auto, using(crate::proofs::Proved::around))]
pub fn readers_around_a_writer()
    ensures { ReadersAroundAWriter }
{}

/// A lone writer opened at the last count: the tickets wrap.
#[tactic(auto, using(crate::proofs::Proved::lone))]
pub fn a_lone_writer_wraps()
    ensures { ALoneWriterWraps }
{}

/// A read request at the last count turns rin to 0.
#[tactic(auto, using(crate::proofs::Proved::reader))]
pub fn a_read_request_wraps()
    ensures { AReadRequestWraps }
{}

/// A reader whose writer has gone is not held off by the next writer's bits.
#[tactic(auto, using(crate::proofs::Proved::phase_bit))]
pub fn the_phase_bit_lets_a_reader_in()
    ensures { ThePhaseBitLetsAReaderIn }
{}

/// The advance of a party that is away is refused.
#[tactic(auto, using(crate::proofs::Proved::away))]
pub fn an_away_party_cannot_advance()
    ensures { AnAwayPartyCannotAdvance }
{}

/// The two readers and the writer on a rig.
#[tactic(auto, using(crate::proofs::OnRigs::around))]
pub fn readers_around_a_writer_on_a_rig()
    ensures { ReadersAroundAWriterOnARig }
{}

/// The lone writer at the last count on a rig: all four words at its end.
#[tactic(auto, using(crate::proofs::OnRigs::lone))]
pub fn a_lone_writer_wraps_on_a_rig()
    ensures { ALoneWriterWrapsOnARig }
{}

/// The read request at the last count on a rig.
#[tactic(auto, using(crate::proofs::OnRigs::reader))]
pub fn a_read_request_wraps_on_a_rig()
    ensures { AReadRequestWrapsOnARig }
{}

/// The reader whose writer has gone, on a rig.
#[tactic(auto, using(crate::proofs::OnRigs::phase_bit))]
pub fn the_phase_bit_lets_a_reader_in_on_a_rig()
    ensures { ThePhaseBitLetsAReaderInOnARig }
{}

/// A leave with a payout open is refused with 13, and accepted after settling.
#[tactic(auto, using(crate::proofs::OnRigs::leave))]
pub fn a_leave_waits_for_the_settling()
    ensures { ALeaveWaitsForTheSettling }
{}

/// Of a cell with 4 coins, 5 cannot be paid out; 4 can, and no fifth drops.
#[tactic(auto, using(crate::proofs::OnRigs::four_coins))]
pub fn four_coins_are_paid_out()
    ensures { FourCoinsArePaidOut }
{}

/// A cell at its limit takes nothing more.
#[tactic(auto, using(crate::proofs::OnRigs::full_cell))]
pub fn a_full_cell_takes_nothing()
    ensures { AFullCellTakesNothing }
{}

/// A waiting reader is told of the writer that enters before it.
#[tactic(auto, using(crate::proofs::OnRigs::told))]
pub fn a_waiting_reader_is_told_of_a_writer()
    ensures { AWaitingReaderIsToldOfAWriter }
{}

#[cfg(test)]
mod tests;
