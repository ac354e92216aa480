ghost use Rattle.std.specs.Prelude.{◌≡◌};
ghost use Rattle.pft.specs.Sound.{Sound};

use arrayvec::ArrayVec;
use pft_steps::party::Party;
use pft_steps::words::Words;

/// The phase-fair ticket lock, stepped.
#[derive(Drop)]
pub struct Pft {
    pub(crate) words: Words,
    pub(crate) parties: ArrayVec<Party, 32>,
    ghost sound: { ∥ Sound words.rin words.rout words.win words.wout parties.items ∥₁ },
}

impl Pft {
    /// The four words as they stand.
    pub fn words(&self) -> Words
        ensures { result ≡ self.now.words }
    {
        self.words
    }
}
