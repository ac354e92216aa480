ghost use Rattle.std.specs.Prelude.{◌≡◌, ◌^◌, ◌<◌};
ghost use Rattle.pft_steps.specs.Steps.{before_at, moved};

/// How far a party has come, as far as it knows by itself. Whether a waiting reader is held off or
/// cleared is not stored: the writer's bits of rin say it.
#[derive(Clone, Copy, Default)]
pub enum Stage {
    #[default]
    Away,
    Waiting,
    Reading,
    InLine,
    Called,
    Posted,
    Writing,
    GoingOut,
}

/// What a party has of its own: a reader saves the writer's bits that it met, a writer its ticket
/// and, from its posting on, the readers that had asked by then. Both are 0 while it is away.
#[derive(Clone, Copy, Default)]
pub struct Party {
    pub stage: Stage,
    pub saved: u32,
    pub ticket: u32,
}

impl Party {
    /// The party at another stage, with the numbers that it has.
    pub fn at(self, stage: Stage) -> Party
        ensures { result ≡ moved stage self }
    {
        Party { stage, ..self }
    }

    /// The number of writers that are before the party in the line, by its ticket.
    pub fn before(self, wout: u32) -> u32
        ensures answer { result ≡ before_at self.stage self.ticket wout }
        // for a caller to whom it is not told that a part of what it passes fits
        ensures fits { self.ticket < 2 ^ 32 }
    {
        match self.stage {
            Stage::Away | Stage::Waiting | Stage::Reading => 0,
            _ => self.ticket.wrapping_sub(wout),
        }
    }
}
