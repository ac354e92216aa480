ghost use Rattle.std.specs.Prelude.{◌≡◌};
ghost use Rattle.phase.specs.Letters.{code_of};
ghost use Rattle.phase.specs.Calls.{caller};
ghost use Rattle.phase.specs.Standings.{is_inside, is_writing, is_waiting, is_entry};

/// Where a party stands in the phase book. `Away` is first, so that it is also what a list of
/// standings is read as past its end.
#[derive(Clone, Copy, PartialEq, Eq, Debug, Default)]
pub enum Standing {
    #[default]
    Away,
    /// A reader that has to wait for the writer that is posted or inside.
    HeldOff,
    /// A reader that may enter by its next advance.
    Cleared,
    Reading,
    /// A writer that has not been called yet.
    InLine,
    /// A writer that is first in the line and has not posted yet.
    Called,
    /// A writer that holds off later readers and waits for the earlier ones to leave.
    Posted,
    Writing,
    /// A writer that has left and is still in the line, under a lock whose writers leave in two steps.
    GoingOut,
}

impl Standing {
    /// It has entered and not left.
    pub fn is_inside(self) -> bool
        ensures { result ≡ is_inside self }
    {
        matches!(self, Standing::Reading | Standing::Writing)
    }

    /// It is inside as a writer.
    pub fn is_writing(self) -> bool
        ensures { result ≡ is_writing self }
    {
        matches!(self, Standing::Writing)
    }

    /// It has requested and not entered.
    pub fn is_waiting(self) -> bool
        ensures { result ≡ is_waiting self }
    {
        matches!(
            self,
            Standing::HeldOff
                | Standing::Cleared
                | Standing::InLine
                | Standing::Called
                | Standing::Posted
        )
    }
}

/// What an accepted call answers.
#[derive(Clone, Copy, PartialEq, Eq, Debug)]
pub enum Letter {
    /// A reader may enter by its next advance.
    Cleared,
    /// A reader has to wait for a writer.
    Held,
    /// A writer is in line.
    Queued,
    /// A writer is first in the line, and may post.
    Called,
    /// The party is inside.
    Entered,
    /// A writer holds off later readers.
    Posted,
    /// Nothing has changed.
    Waits,
    /// A writer that was going out is away and off the line.
    Gone,
    /// The party has left and is away.
    Away,
    /// A writer has left and is going out.
    Out,
}

/// The letter as it is written.
impl From<Letter> for char {
    ghost from_gives = { λ letter c. c ≡ code_of letter };

    fn from(letter: Letter) -> char {
        match letter {
            Letter::Cleared => 'c',
            Letter::Held => 'h',
            Letter::Queued => 'q',
            Letter::Called => 'k',
            Letter::Entered => 'n',
            Letter::Posted => 'p',
            Letter::Waits => 'w',
            Letter::Gone => 'g',
            Letter::Away => 'a',
            Letter::Out => 'o',
        }
    }
}

impl Letter {
    /// The party has entered by this call.
    pub fn is_entry(self) -> bool
        ensures { result ≡ is_entry self }
    {
        matches!(self, Letter::Entered)
    }
}

/// A call of a lock, as a value: what is called, and the party that calls.
#[derive(Clone, Copy, PartialEq, Eq, Debug)]
pub enum LockCall {
    RequestRead(u8),
    RequestWrite(u8),
    Advance(u8),
    Leave(u8),
}

impl LockCall {
    /// The party that calls.
    pub fn party(self) -> u8
        ensures { result ≡ caller self }
    {
        match self {
            LockCall::RequestRead(party)
            | LockCall::RequestWrite(party)
            | LockCall::Advance(party)
            | LockCall::Leave(party) => party,
        }
    }
}
