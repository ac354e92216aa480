ghost use Rattle.std.specs.Prelude.{◌≤◌, length};
ghost use Rattle.phase.specs.Line.{Lined};
ghost use Rattle.list_lock.specs.Shown.{shown, NobodyOut};

use crate::parts::{once_free, take_off};
use arrayvec::ArrayVec;
use phase::faults::LockFault;
use phase::kinds::Standing;

/// A lock that holds the standings and the line of writers as they are, and looks through them at each
/// call. Its writers leave in one step.
#[derive(Drop)]
pub struct ListLock {
    pub(crate) standings: ArrayVec<Standing, 32>,
    pub(crate) line: ArrayVec<u8, 32>,
    ghost within: { (length standings.items ≤ 32) × (length line.items ≤ 32) },
    ghost lined: { Lined (shown standings line) },
    // Nobody is ever going out, so that no call has to serve that standing.
    ghost stays: { NobodyOut (shown standings line) },
}

impl ListLock {
    ghost use Rattle.std.specs.Prelude.{◌≡◌, ◌<◌, false, IfOk, OnErr};
    ghost use Rattle.phase.specs.Book.{standing, count, new, put, queue, gone, freeing};
    ghost use Rattle.phase.specs.Line.{is_writer};
    ghost use Rattle.phase.specs.declared.kinds.Standing.TheVariants.{Away};
    ghost use Rattle.list_lock.specs.Shown.{is_out};
    ghost use Rattle.list_lock.specs.Moved.{book_of};

    /// A lock with all parties away.
    #[tactic(auto, using(crate::proofs::Keeps::all_away, phase::proofs::Lines::away_new))]
    pub(crate) fn all_away(count: usize) -> Self
        requires { count ≤ 32 }
        ensures { book_of result ≡ new count }
    {
        let mut standings = ArrayVec::from([Standing::Away; 32]);
        standings.truncate(count);
        ListLock {
            standings,
            line: ArrayVec::new(),
        }
    }

    /// The standing of a party that the lock has.
    pub(crate) fn known(&self, party: u8) -> Result<Standing, LockFault>
        ensures found { IfOk result (λ s. (party < count (book_of self.now)) × (standing (book_of self.now) party ≡ s)) }
        ensures one_step { IfOk result (λ s. is_out s ≡ false) }
        ensures unknown { OnErr result (count (book_of self.now) ≤ party) }
    {
        self.standings
            .get(usize::from(party))
            .copied()
            .ok_or(LockFault::Unfit)
    }

    /// Puts a party at another standing, as a writer if it was one.
    #[tactic(auto, using(crate::proofs::Keeps::keeps))]
    pub(crate) fn put(&mut self, party: u8, next: Standing)
        requires here { party < count (book_of self.old) }
        requires alike { is_writer next ≡ is_writer (standing (book_of self.old) party) }
        requires stays { is_out next ≡ false }
        ensures { book_of self.new ≡ put (book_of self.old) party next }
    {
        self.standings[usize::from(party)] = next;
    }

    /// Puts a party that is away into the line, at its end.
    #[tactic(auto, using(crate::proofs::Keeps::keeps))]
    pub(crate) fn queue(&mut self, party: u8)
        requires here { party < count (book_of self.old) }
        requires away { standing (book_of self.old) party ≡ Away }
        ensures { book_of self.new ≡ queue (book_of self.old) party }
    {
        self.standings[usize::from(party)] = Standing::InLine;
        // There is room, since the party is not in the line yet and no other is in it twice.
        self.line.push(party);
    }

    /// Puts a party away and takes it off the line.
    #[tactic(auto, using(crate::proofs::Keeps::keeps))]
    pub(crate) fn retire(&mut self, party: u8)
        requires { party < count (book_of self.old) }
        ensures { book_of self.new ≡ gone (book_of self.old) party }
    {
        self.standings[usize::from(party)] = Standing::Away;
        take_off(&mut self.line, party);
    }

    /// Clears every reader held off.
    pub(crate) fn free(&mut self)
        ensures { book_of self.new ≡ freeing (book_of self.old) }
    {
        for standing in self.standings.iter_mut() {
            *standing = once_free(*standing);
        }
    }
}
