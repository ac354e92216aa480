ghost use Rattle.std.specs.Prelude.{◌≡◌, ◌<◌, ◌≤◌, ◌↔◌, true, replicate, IsSome, IfSome, slice_index_or, slice_set, Ok};
ghost use Rattle.arrayvec.specs.ArrayVec.{array_vec_len};
ghost use Rattle.phase.specs.Book.{Steps, new};
ghost use Rattle.phase.specs.Line.{ahead as ahead_in};
ghost use Rattle.pft_steps.specs.Steps.{four, nobody};
ghost use Rattle.pft.specs.Sound.{Kept, Sound};
ghost use Rattle.pft.specs.Model.{state, applied, book as pft_book, opened, after, after_opening};

use crate::lock::Pft;
use arrayvec::ArrayVec;
use pft_steps::party::Party;
use pft_steps::steps::{Change, Turn, readers_at};
use pft_steps::words::{Four, Words};
use phase::faults::{LockFault, OpenFault};
use phase::kinds::{Letter, LockCall, Standing};
use phase::lock::{Lock, right_count};

impl Lock for Pft {
    const TWO_STEP: bool = true;

    ghost TWO_STEP = { true };

    ghost book = { pft_book };

    ghost moved = { λ s c r t. state t ≡ after c (state s) };

    ghost began = { λ s n start r t. state t ≡ after_opening n start (state s) };

    ghost bare = { λ l. state l ≡ opened 0 0 };

    fn unopened() -> Self {
        Pft::with_all_away(0, 0)
    }

    fn open(&mut self, parties: u32, start: u32) -> Result<(), OpenFault> {
        if !right_count(parties) {
            return Err(OpenFault::Count);
        }
        *self = Pft::with_all_away(parties, start);
        Ok(())
    }

    fn standing(&self, party: u8) -> Standing {
        self.turn(party).map_or(Standing::Away, Turn::standing)
    }

    #[tactic(auto, using(crate::proofs::AtLock::ahead_past, crate::proofs::AtLock::ahead_here))]
    fn ahead(&self, party: u8) -> u8 {
        let Some(turn) = self.turn(party) else {
            return 0;
        };
        turn.party.before(turn.words.wout) as u8
    }

    fn request_read(&mut self, party: u8) -> Result<Letter, LockFault> {
        self.take(LockCall::RequestRead(party))
    }

    fn request_write(&mut self, party: u8) -> Result<Letter, LockFault> {
        self.take(LockCall::RequestWrite(party))
    }

    fn advance(&mut self, party: u8) -> Result<Letter, LockFault> {
        self.take(LockCall::Advance(party))
    }

    fn leave(&mut self, party: u8) -> Result<Letter, LockFault> {
        self.take(LockCall::Leave(party))
    }
}

impl Pft {
    // A lock of so many parties, all of them away.
    #[tactic(auto, using(crate::proofs::Ahead::fresh_seen))]
    fn with_all_away(parties: u32, start: u32) -> Pft
        requires { parties ≤ 32 }
        ensures words { state result ≡ opened parties start }
        ensures shows { pft_book result ≡ new parties }
    {
        let readers = readers_at(start);
        Pft {
            words: Words {
                rin: readers,
                rout: readers,
                win: start,
                wout: start,
            },
            parties: all_away(parties),
        }
    }

    // A party and the words, if the lock has the party.
    #[tactic(auto, using(crate::proofs::AtLock::ahead_few))]
    fn turn(&self, party: u8) -> Option<Turn>
        ensures known { IsSome result ↔ (party < array_vec_len self.now.parties) }
        ensures found { IfSome result (λ turn. (turn.party ≡ slice_index_or self.now.parties.items party nobody) × (turn.words ≡ four self.now.words)) }
        // so that the answer of `ahead` fits its type
        ensures few { ahead_in (pft_book self.now) party ≤ 32 }
    {
        let party = self.parties.get(usize::from(party))?;
        Some(Turn {
            party: *party,
            words: Four::from(self.words),
        })
    }

    // Makes a call: looks up its party, and writes what the step makes of it and of the words.
    fn take(&mut self, call: LockCall) -> Result<Letter, LockFault>
        ensures steps { Steps true call (pft_book self.old) result (pft_book self.new) }
        ensures words { state self.new ≡ after call (state self.old) }
    {
        let party = call.party();
        let turn = self.turn(party).ok_or(LockFault::Unfit)?;
        let change = turn.make(call)?;
        self.write(party, change);
        Ok(change.letter)
    }

    // Writes what a step makes of its party and of the words.
    fn write(&mut self, party: u8, change: Change)
        requires there { party < array_vec_len self.old.parties }
        requires kept { Kept change.words }
        requires sound { Sound change.words.rin change.words.rout change.words.win change.words.wout (slice_set self.old.parties.items party change.party) }
        ensures { state self.new ≡ applied party (state self.old) (Ok change) }
    {
        self.words = Words {
            rin: change.words.rin,
            rout: change.words.rout,
            win: change.words.win,
            wout: change.words.wout,
        };
        self.parties[usize::from(party)] = change.party;
    }
}

// So many parties, all of them away.
fn all_away(parties: u32) -> ArrayVec<Party, 32>
    requires { parties ≤ 32 }
    ensures { result.items ≡ replicate parties nobody }
{
    let mut all = ArrayVec::from([Party::default(); 32]);
    all.truncate(parties as usize);
    all
}
