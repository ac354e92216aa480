ghost use Rattle.std.specs.Prelude.{◌≡◌, ◌*◌, ◌%◌, ◌^◌, bit_and};
ghost use Rattle.phase.specs.declared.kinds.Letter.TheVariants.{Entered, Waits};
ghost use Rattle.pft_steps.specs.Steps.{unchanged, moved, held, standing_at, letter_met, asked, joined, posted, advanced, left, next};

use crate::party::{Party, Stage};
use crate::words::{Four, LOW_BYTE, PHID, PRES, RINC, WBITS};
use phase::faults::LockFault;
use phase::kinds::{Letter, LockCall, Standing};

/// What a step makes of its party and of the four words, and the letter that it answers.
#[derive(Clone, Copy)]
pub struct Change {
    pub letter: Letter,
    pub party: Party,
    pub words: Four,
}

/// A party, and the four words as it finds them.
#[derive(Clone, Copy)]
pub struct Turn {
    pub party: Party,
    pub words: Four,
}

impl Turn {
    /// What a call makes of the party and of the words.
    pub fn make(self, call: LockCall) -> Result<Change, LockFault>
        ensures { result ≡ next call self.party self.words }
    {
        match call {
            LockCall::RequestRead(_) => self.ask(),
            LockCall::RequestWrite(_) => self.join(),
            LockCall::Advance(_) => self.advance(),
            LockCall::Leave(_) => self.leave(),
        }
    }

    /// The standing that the party shows.
    pub fn standing(self) -> Standing
        ensures { result ≡ standing_at (bit_and self.words.rin 3) self.party.stage self.party.saved }
    {
        match self.party.stage {
            Stage::Away => Standing::Away,
            Stage::Waiting => {
                if self.held_off() {
                    Standing::HeldOff
                } else {
                    Standing::Cleared
                }
            }
            Stage::Reading => Standing::Reading,
            Stage::InLine => Standing::InLine,
            Stage::Called => Standing::Called,
            Stage::Posted => Standing::Posted,
            Stage::Writing => Standing::Writing,
            Stage::GoingOut => Standing::GoingOut,
        }
    }

    // A reader asks: it saves the writer's bits, and counts itself in.
    fn ask(self) -> Result<Change, LockFault>
        ensures { result ≡ asked self.party self.words }
    {
        match self.party.stage {
            Stage::Away => {
                let saved = self.words.rin & WBITS;
                Ok(Change {
                    letter: letter_met(saved),
                    party: Party {
                        stage: Stage::Waiting,
                        saved,
                        ticket: 0,
                    },
                    words: Four {
                        rin: self.words.rin.wrapping_add(RINC),
                        ..self.words
                    },
                })
            }
            _ => Err(LockFault::Unfit),
        }
    }

    // A writer asks: it draws a ticket.
    fn join(self) -> Result<Change, LockFault>
        ensures { result ≡ joined self.party self.words }
    {
        match self.party.stage {
            Stage::Away => {
                Ok(Change {
                    letter: Letter::Queued,
                    party: Party {
                        stage: Stage::InLine,
                        saved: 0,
                        ticket: self.words.win,
                    },
                    words: Four {
                        win: self.words.win.wrapping_add(1),
                        ..self.words
                    },
                })
            }
            _ => Err(LockFault::Unfit),
        }
    }

    fn advance(self) -> Result<Change, LockFault>
        ensures { result ≡ advanced self.party self.words }
    {
        match self.party.stage {
            Stage::Waiting => {
                if self.held_off() {
                    Ok(self.wait())
                } else {
                    Ok(self.enter(Stage::Reading))
                }
            }
            Stage::InLine => {
                if self.party.ticket == self.words.wout {
                    Ok(self.go_to(Stage::Called, Letter::Called))
                } else {
                    Ok(self.wait())
                }
            }
            Stage::Called => Ok(self.post()),
            Stage::Posted => {
                if self.party.saved == self.words.rout {
                    Ok(self.enter(Stage::Writing))
                } else {
                    Ok(self.wait())
                }
            }
            Stage::GoingOut => {
                Ok(Change {
                    letter: Letter::Gone,
                    party: Party::default(),
                    words: Four {
                        wout: self.words.wout.wrapping_add(1),
                        ..self.words
                    },
                })
            }
            Stage::Away | Stage::Reading | Stage::Writing => Err(LockFault::Unfit),
        }
    }

    // A called writer posts: from here on readers are held off, and those that asked before are counted in what it saves.
    fn post(self) -> Change
        ensures { result ≡ posted self.party self.words }
    {
        let rin = self
            .words
            .rin
            .wrapping_add(PRES + (self.party.ticket & PHID));
        Change {
            letter: Letter::Posted,
            party: Party {
                stage: Stage::Posted,
                saved: self.words.rin,
                ..self.party
            },
            words: Four { rin, ..self.words },
        }
    }

    // A writer that leaves clears its bits of rin, and raises wout only by its last advance. Were wout raised first, the
    // next writer could post before rin is cleared, and its bits would be wiped.
    fn leave(self) -> Result<Change, LockFault>
        ensures { result ≡ left self.party self.words }
    {
        match self.party.stage {
            Stage::Reading => {
                Ok(Change {
                    letter: Letter::Away,
                    party: Party::default(),
                    words: Four {
                        rout: self.words.rout.wrapping_add(RINC),
                        ..self.words
                    },
                })
            }
            Stage::Writing => {
                Ok(Change {
                    letter: Letter::Out,
                    party: self.party.at(Stage::GoingOut),
                    words: Four {
                        rin: self.words.rin & !LOW_BYTE,
                        ..self.words
                    },
                })
            }
            _ => Err(LockFault::Unfit),
        }
    }

    // A reader that met a writer's bits waits as long as rin has the same ones: other bits say that this
    // writer has gone, even if the next one has posted already.
    fn held_off(self) -> bool
        ensures { result ≡ held (bit_and self.words.rin 3) self.party.saved }
    {
        self.party.saved != 0 && self.party.saved == self.words.rin & WBITS
    }

    // The party is inside from now on.
    fn enter(self, stage: Stage) -> Change
        ensures { result ≡ unchanged Entered (moved stage self.party) self.words }
    {
        self.go_to(stage, Letter::Entered)
    }

    // The party is at another stage, and the words stay.
    fn go_to(self, stage: Stage, letter: Letter) -> Change
        ensures { result ≡ unchanged letter (moved stage self.party) self.words }
    {
        Change {
            letter,
            party: self.party.at(stage),
            words: self.words,
        }
    }

    // The party and the words stay.
    fn wait(self) -> Change
        ensures { result ≡ unchanged Waits self.party self.words }
    {
        Change {
            letter: Letter::Waits,
            party: self.party,
            words: self.words,
        }
    }
}

/// What rin and rout are in a lock opened at a start count.
pub fn readers_at(start: u32) -> u32
    ensures { result ≡ start * 256 % 2 ^ 32 }
{
    start.wrapping_mul(RINC)
}

fn letter_met(saved: u32) -> Letter
    ensures { result ≡ letter_met saved }
{
    if saved == 0 {
        Letter::Cleared
    } else {
        Letter::Held
    }
}
