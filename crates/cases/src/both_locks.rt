//! One function over any lock, called at each kind.
ghost use Rattle.std.specs.Prelude.{◌≡◌, true, false};
ghost use Rattle.list_lock.specs.Moved.{book_of as list_book};
ghost use Rattle.pft.specs.Model.{book as pft_book};
ghost use Rattle.rig.specs.Shown.{view};
ghost use Rattle.cases.specs.Entering.{Entered};

use list_lock::lock::ListLock;
use pft::lock::Pft;
use phase::kinds::Letter;
use phase::lock::Lock;
use rig::rig::Rig;
use rig_parts::faults::RigFault;

/// Asks to write and advances three times, which brings a party inside where no other stands in its way. Answers as the
/// last advance does.
pub fn enter<L: Lock>(rig: &mut Rig<L>, party: u8) -> Result<Letter, RigFault>
    ensures { Entered L.Lock.TWO_STEP party (view L.Lock.book rig.old) result (view L.Lock.book rig.new) }
{
    let _ = rig.request_write(party);
    let _ = rig.advance(party);
    let _ = rig.advance(party);
    rig.advance(party)
}

/// The same over the phase-fair ticket lock.
pub fn enter_over_pft(rig: &mut Rig<Pft>, party: u8) -> Result<Letter, RigFault>
    ensures { Entered true party (view pft_book rig.old) result (view pft_book rig.new) }
{
    enter::<Pft>(rig, party)
}

/// The same over the list lock.
pub fn enter_over_list(rig: &mut Rig<ListLock>, party: u8) -> Result<Letter, RigFault>
    ensures { Entered false party (view list_book rig.old) result (view list_book rig.new) }
{
    enter::<ListLock>(rig, party)
}
