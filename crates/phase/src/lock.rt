ghost use Rattle.std.specs.Prelude.{◌≡◌, ℕ, Bool};
ghost use Rattle.phase.specs.Line.{ahead as ahead_in};
ghost use Rattle.phase.specs.Book.{standing as standing_in, Book, Answer, Opened, Steps, Opening, new, right_count};
ghost use Rattle.phase.specs.declared.kinds.LockCall.{LockCall};
ghost use Rattle.phase.specs.declared.kinds.LockCall.TheVariants.{RequestRead, RequestWrite, Advance, Leave};

use crate::faults::{LockFault, OpenFault};
use crate::kinds::{Letter, LockCall, Standing};

/// A reader-writer lock, stepped one atomic step a call.
///
/// What an implementation owes is that it keeps the phase book: each call answers the letter that the
/// book gives and moves the book as the book's step says, refusals included, and each question is
/// answered from the book. What it does to its own data is its own affair, told by `moved`, `began` and `bare`,
/// so that code over any lock can pass it on.
pub trait Lock: Sized {
    /// Whether a writer leaves in two steps, going out first, or in one.
    const TWO_STEP: bool;

    ghost TWO_STEP: { Bool };

    // The phase book that the lock keeps.
    ghost book: { Self → Book };

    // The lock's own step: its value before a call, the call, the answer, and its value after it.
    ghost moved: { Self → LockCall → Answer → Self → Type 0 };

    // The lock's own opening: its value before, the party count, the start count, the answer, its value after.
    ghost began: { Self → ℕ → ℕ → Opened → Self → Type 0 };

    // The lock's own value before it is ever opened.
    ghost bare: { Self → Type 0 };

    /// A lock that was never opened: it has no parties, and refuses every call.
    fn unopened() -> Self
        ensures shows { book result ≡ new 0 }
        ensures own { bare result };

    /// Opens the lock anew, with all parties away. Refused, with the book as it was, unless there are 1 to 32
    /// parties. A lock without counters ignores the start count.
    fn open(&mut self, parties: u32, start: u32) -> Result<(), OpenFault>
        ensures opens { Opening parties (book self.old) result (book self.new) }
        ensures own { began self.old parties start result self.new };

    /// The party's standing; away for a party that the lock does not have.
    fn standing(&self, party: u8) -> Standing
        ensures { result ≡ standing_in (book self.now) party };

    /// The number of writers before the party in the line, 0 for a party that is not in it.
    fn ahead(&self, party: u8) -> u8
        ensures { result ≡ ahead_in (book self.now) party };

    /// Asks to read: the party is held off if a writer is posted or inside, else cleared.
    fn request_read(&mut self, party: u8) -> Result<Letter, LockFault>
        ensures steps { Steps TWO_STEP (RequestRead party) (book self.old) result (book self.new) }
        ensures own { moved self.old (RequestRead party) result self.new };

    /// Asks to write: the party is put at the end of the line.
    fn request_write(&mut self, party: u8) -> Result<Letter, LockFault>
        ensures steps { Steps TWO_STEP (RequestWrite party) (book self.old) result (book self.new) }
        ensures own { moved self.old (RequestWrite party) result self.new };

    /// Takes the party's next step, if it may be taken yet.
    fn advance(&mut self, party: u8) -> Result<Letter, LockFault>
        ensures steps { Steps TWO_STEP (Advance party) (book self.old) result (book self.new) }
        ensures own { moved self.old (Advance party) result self.new };

    /// Leaves from inside. A writer's leave clears every reader held off.
    fn leave(&mut self, party: u8) -> Result<Letter, LockFault>
        ensures steps { Steps TWO_STEP (Leave party) (book self.old) result (book self.new) }
        ensures own { moved self.old (Leave party) result self.new };
}

/// Whether a lock can be opened for so many parties.
pub fn right_count(parties: u32) -> bool
    ensures { result ≡ right_count parties }
{
    (1..=32).contains(&parties)
}

/// Makes a call that is given as a value, on any lock.
pub fn make<L: Lock>(lock: &mut L, call: LockCall) -> Result<Letter, LockFault>
    ensures steps { Steps L.Lock.TWO_STEP call (L.Lock.book lock.old) result (L.Lock.book lock.new) }
    ensures own { L.Lock.moved lock.old call result lock.new }
{
    match call {
        LockCall::RequestRead(party) => lock.request_read(party),
        LockCall::RequestWrite(party) => lock.request_write(party),
        LockCall::Advance(party) => lock.advance(party),
        LockCall::Leave(party) => lock.leave(party),
    }
}
