ghost use Rattle.std.specs.Prelude.{◌≡◌, ◌+◌, ◌^◌, ◌<◌, ◌≤◌, length, slice_index};
ghost use Rattle.till.specs.Cells.{Capped, left_of, cell_of, dropped_of};

use crate::payout::Payout;

/// Eight cells, which are coin meters, and at most one payout out of one of them.
///
/// No cell is above its limit. The cell of an open payout holds at least the coins left, and the coins left and dropped
/// together fit a number of 32 bits.
#[derive(Drop)]
pub struct Till {
    pub(crate) cells: [u32; 8],
    pub(crate) payout: Option<Payout>,
    ghost sized: { length cells ≡ 8 },
    ghost capped: { Capped cells },
    ghost placed: { cell_of payout < 8 },
    ghost covered: { left_of payout ≤ slice_index cells (cell_of payout) },
    ghost counted: { left_of payout + dropped_of payout < 2 ^ 32 },
}
