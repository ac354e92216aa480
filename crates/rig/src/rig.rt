ghost use Rattle.std.specs.Prelude.{◌≤◌};

use rig_parts::told::Told;
use till::till::Till;

/// A lock, stepped for up to 32 parties, with eight cells and one payout at a time.
#[derive(Drop)]
pub struct Rig<L> {
    pub(crate) lock: L,
    // 0 until the rig is opened.
    pub(crate) parties: u8,
    pub(crate) told: Told,
    pub(crate) till: Till,
    ghost few: { parties ≤ 32 },
}
