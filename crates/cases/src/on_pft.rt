//! A rig over the phase-fair ticket lock, by all that it holds.
ghost use Rattle.std.specs.Prelude.{◌≡◌};
ghost use Rattle.cases.specs.PftRig.{held, fresh, replies, after};

use dispatch::dispatch::dispatch;
use dispatch::reply::Reply;
use pft::lock::Pft;
use rig::rig::Rig;
use rig_parts::faults::RigFault;
use schedule::call::Call;

/// A rig opened for 32 parties at count 0.
pub fn new_rig() -> Rig<Pft>
    ensures { held result ≡ fresh 32 0 }
{
    let mut rig = Rig::unopened();
    let _ = rig.open(32, 0);
    rig
}

/// Makes a call on the rig: its reply, and all that the rig then holds.
pub fn make_on_pft(rig: &mut Rig<Pft>, call: Call) -> Result<Reply, RigFault>
    ensures reply { result ≡ replies call (held rig.old) }
    ensures rig { held rig.new ≡ after call (held rig.old) }
{
    dispatch(rig, call)
}
