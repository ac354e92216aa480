ghost use Rattle.std.specs.Prelude.{◌≡◌, Bool, true, false, if◌then◌else◌, Ok, Err, nat_lt};
ghost use Rattle.phase.specs.Book.{standing as standing_in};
ghost use Rattle.phase.specs.Standings.{is_inside, is_writing};
ghost use Rattle.phase.specs.declared.faults.LockFault.TheVariants.{Unfit};
ghost use Rattle.phase.specs.declared.kinds.LockCall.TheVariants.{RequestRead, RequestWrite, Advance, Leave};
ghost use Rattle.rig_parts.specs.View.{opened, recorded, locks, look, fill, begin, drop, settle, opening};
ghost use Rattle.rig_parts.specs.declared.faults.RigFault.TheVariants.{NoParty, OfLock};
ghost use Rattle.rig.specs.Shown.{view, RigTakes, Owns};

use crate::rig::Rig;
use phase::faults::{LockFault, OpenFault};
use phase::kinds::{Letter, Standing};
use phase::lock::Lock;
use rig_parts::faults::RigFault;
use rig_parts::record::Record;
use rig_parts::told::Told;
use till::till::Till;

impl<L: Lock> Rig<L> {
    /// A rig that was never opened: it has no parties, and refuses every call that names one.
    pub fn unopened() -> Rig<L>
        ensures shows { view L.Lock.book result ≡ opened 0 }
        ensures own { L.Lock.bare result.lock }
    {
        Rig {
            lock: L::unopened(),
            parties: 0,
            told: Told::none(),
            till: Till::empty(),
        }
    }

    /// Opens the rig anew: all parties away, all told counts and cells at 0, no payout. Refused, with nothing changed,
    /// unless there are 1 to 32 parties.
    pub fn open(&mut self, parties: u32, start: u32) -> Result<(), OpenFault>
        ensures takes { RigTakes L.Lock (opening parties start) self.old result self.new }
        ensures own { Owns L.Lock (opening parties start) self.old result self.new }
    {
        self.lock.open(parties, start)?;
        // The lock has refused any count above 32.
        self.parties = parties as u8;
        self.told = Told::none();
        self.till = Till::empty();
        Ok(())
    }

    /// The lock, to be looked at.
    pub fn lock(&self) -> &L
        ensures { result.now ≡ self.now.lock }
    {
        &self.lock
    }

    /// What is on record of a party; away and 0 for a party that is not there.
    pub fn record(&self, party: u8) -> Record
        ensures { result ≡ recorded party (view L.Lock.book self.now) }
    {
        if !self.has(party) {
            return Record::default();
        }
        let standing = self.lock.standing(party);
        let told = if standing.is_waiting() {
            self.told.of(party)
        } else {
            0
        };
        Record { standing, told }
    }

    /// Asks to read.
    pub fn request_read(&mut self, party: u8) -> Result<Letter, RigFault>
        ensures takes { RigTakes L.Lock (locks (RequestRead party)) self.old result self.new }
        ensures own { Owns L.Lock (locks (RequestRead party)) self.old result self.new }
    {
        self.must_be_there(party)?;
        let letter = self.lock.request_read(party)?;
        self.told.restart(party);
        Ok(letter)
    }

    /// Asks to write.
    pub fn request_write(&mut self, party: u8) -> Result<Letter, RigFault>
        ensures takes { RigTakes L.Lock (locks (RequestWrite party)) self.old result self.new }
        ensures own { Owns L.Lock (locks (RequestWrite party)) self.old result self.new }
    {
        self.must_be_there(party)?;
        let letter = self.lock.request_write(party)?;
        self.told.restart(party);
        Ok(letter)
    }

    /// Takes the party's next step, if it may be taken yet.
    pub fn advance(&mut self, party: u8) -> Result<Letter, RigFault>
        ensures takes { RigTakes L.Lock (locks (Advance party)) self.old result self.new }
        ensures own { Owns L.Lock (locks (Advance party)) self.old result self.new }
    {
        self.must_be_there(party)?;
        let letter = self.lock.advance(party)?;
        if letter.is_entry() {
            self.told.note_entry(&self.lock, party);
        }
        Ok(letter)
    }

    /// Leaves from inside, unless a payout is open.
    pub fn leave(&mut self, party: u8) -> Result<Letter, RigFault>
        ensures takes { RigTakes L.Lock (locks (Leave party)) self.old result self.new }
        ensures own { Owns L.Lock (locks (Leave party)) self.old result self.new }
    {
        self.must_be_there(party)?;
        // A party that is not inside must be refused by the lock itself.
        if self.till.is_paying() && self.lock.standing(party).is_inside() {
            return Err(RigFault::Paying);
        }
        Ok(self.lock.leave(party)?)
    }

    /// What a cell holds. The party must be inside.
    pub fn look(&self, party: u8, cell: u8) -> Result<u32, RigFault>
        ensures { RigTakes L.Lock (look party cell) self.now result self.now }
    {
        self.must_stand(party, Standing::is_inside)?;
        Ok(self.till.look(cell)?)
    }

    /// Adds to a cell, and answers its new reading. The party must be inside writing.
    pub fn fill(&mut self, party: u8, cell: u8, amount: u32) -> Result<u32, RigFault>
        ensures takes { RigTakes L.Lock (fill party cell amount) self.old result self.new }
        ensures own { Owns L.Lock (fill party cell amount) self.old result self.new }
    {
        self.must_stand(party, Standing::is_writing)?;
        Ok(self.till.fill(cell, amount)?)
    }

    /// Opens a payout of so many coins out of a cell. The party must be inside writing.
    pub fn begin(&mut self, party: u8, cell: u8, coins: u32) -> Result<(), RigFault>
        ensures takes { RigTakes L.Lock (begin party cell coins) self.old result self.new }
        ensures own { Owns L.Lock (begin party cell coins) self.old result self.new }
    {
        self.must_stand(party, Standing::is_writing)?;
        Ok(self.till.begin(party, cell, coins)?)
    }

    /// Drops one coin of the open payout, and answers the coins left. The party must be inside writing.
    pub fn drop_coin(&mut self, party: u8) -> Result<u32, RigFault>
        ensures takes { RigTakes L.Lock (drop party) self.old result self.new }
        ensures own { Owns L.Lock (drop party) self.old result self.new }
    {
        self.must_stand(party, Standing::is_writing)?;
        Ok(self.till.drop_coin()?)
    }

    /// Ends the open payout, and answers the coins dropped and the coins left. The party must be inside writing.
    pub fn settle(&mut self, party: u8) -> Result<(u32, u32), RigFault>
        ensures takes { RigTakes L.Lock (settle party) self.old result self.new }
        ensures own { Owns L.Lock (settle party) self.old result self.new }
    {
        self.must_stand(party, Standing::is_writing)?;
        Ok(self.till.settle()?)
    }

    fn has(&self, party: u8) -> bool
        ensures { result ≡ nat_lt party self.now.parties }
    {
        party < self.parties
    }

    fn must_be_there(&self, party: u8) -> Result<(), RigFault>
        ensures { result ≡ (if nat_lt party self.now.parties then Ok tt else Err NoParty) }
    {
        if !self.has(party) {
            return Err(RigFault::NoParty);
        }
        Ok(())
    }

    // The rig has the party, at a standing that fits.
    fn must_stand<F: FnOnce(Standing) -> bool>(&self, party: u8, fits: F) -> Result<(), RigFault>
        requires { F.IsAlwaysCallable fits }
        ensures absent { nat_lt party self.now.parties ≡ false → result ≡ Err NoParty }
        ensures there { nat_lt party self.now.parties ≡ true → (b : Bool) × F.post fits (standing_in (L.Lock.book self.now.lock) party) b × (result ≡ (if b then Ok tt else Err (OfLock Unfit))) }
    {
        self.must_be_there(party)?;
        let fit = fits(self.lock.standing(party));
        if !fit {
            return Err(LockFault::Unfit.into());
        }
        Ok(())
    }
}
