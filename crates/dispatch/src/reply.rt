ghost use Rattle.std.specs.Prelude.{◌≡◌};
ghost use Rattle.dispatch.specs.Replies.{code_of_reply};

use phase::kinds::Letter;

/// What a call of a rig answers where it is accepted.
#[derive(Clone, Copy, PartialEq, Eq, Debug)]
pub enum Reply {
    /// The letter of a call that went to the lock.
    Stepped(Letter),
    /// What the cell holds.
    Looked(u32),
    /// The cell's new reading.
    Filled(u32),
    Begun,
    /// The coins left.
    Dropped(u32),
    Settled { dropped: u32, left: u32 },
}

/// The letter as it is written.
impl From<Reply> for char {
    ghost from_gives = { λ reply c. c ≡ code_of_reply reply };

    fn from(reply: Reply) -> char {
        match reply {
            Reply::Stepped(letter) => char::from(letter),
            Reply::Looked(_) => 'r',
            Reply::Filled(_) => 'f',
            Reply::Begun => 'b',
            Reply::Dropped(_) => 'd',
            Reply::Settled {
                dropped: _,
                left: _,
            } => 's',
        }
    }
}
