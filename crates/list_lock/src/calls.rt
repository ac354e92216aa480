ghost use Rattle.std.specs.Prelude.{false};
ghost use Rattle.list_lock.specs.Moved.{book_of, Moved, Began, Bare};

use crate::lock::ListLock;
use crate::parts::{any_bars, any_near, is_first, on_advance, on_request_read, place_in};
use phase::faults::{LockFault, OpenFault};
use phase::kinds::{Letter, Standing};
use phase::lock::{Lock, right_count};

impl Lock for ListLock {
    const TWO_STEP: bool = false;

    ghost TWO_STEP = { false };

    ghost book = { book_of };

    ghost moved = { Moved };

    ghost began = { λ s n _ r t. Began s n r t };

    ghost bare = { Bare };

    fn unopened() -> Self {
        ListLock::all_away(0)
    }

    fn open(&mut self, parties: u32, _start: u32) -> Result<(), OpenFault> {
        if !right_count(parties) {
            return Err(OpenFault::Count);
        }
        *self = ListLock::all_away(parties as usize);
        Ok(())
    }

    fn standing(&self, party: u8) -> Standing {
        self.known(party).unwrap_or_default()
    }

    fn ahead(&self, party: u8) -> u8 {
        place_in(&self.line, party)
    }

    fn request_read(&mut self, party: u8) -> Result<Letter, LockFault> {
        let standing = self.known(party)?;
        let barred = any_bars(&self.standings);
        let (next, letter) = on_request_read(standing, barred)?;
        self.put(party, next);
        Ok(letter)
    }

    fn request_write(&mut self, party: u8) -> Result<Letter, LockFault> {
        match self.known(party)? {
            Standing::Away => {
                self.queue(party);
                Ok(Letter::Queued)
            }
            _ => Err(LockFault::Unfit),
        }
    }

    fn advance(&mut self, party: u8) -> Result<Letter, LockFault> {
        let standing = self.known(party)?;
        let first = is_first(&self.line, party);
        let awaited = any_near(&self.standings);
        let (next, letter) = on_advance(standing, first, awaited)?;
        self.put(party, next);
        Ok(letter)
    }

    fn leave(&mut self, party: u8) -> Result<Letter, LockFault> {
        match self.known(party)? {
            Standing::Reading => self.put(party, Standing::Away),
            Standing::Writing => {
                self.free();
                self.retire(party);
            }
            _ => return Err(LockFault::Unfit),
        }
        Ok(Letter::Away)
    }
}
