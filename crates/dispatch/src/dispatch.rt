ghost use Rattle.dispatch.specs.Dispatch.{Dispatches};

use crate::reply::Reply;
use phase::lock::Lock;
use rig::rig::Rig;
use rig_parts::faults::RigFault;
use schedule::call::Call;

/// Makes a call, given as a value, on a rig.
pub fn dispatch<L: Lock>(rig: &mut Rig<L>, call: Call) -> Result<Reply, RigFault>
    ensures { Dispatches L.Lock call rig.old result rig.new }
{
    match call {
        Call::RequestRead(party) => rig.request_read(party).map(Reply::Stepped),
        Call::RequestWrite(party) => rig.request_write(party).map(Reply::Stepped),
        Call::Advance(party) => rig.advance(party).map(Reply::Stepped),
        Call::Leave(party) => rig.leave(party).map(Reply::Stepped),
        Call::Look { party, cell } => rig.look(party, cell).map(Reply::Looked),
        Call::Fill {
            party,
            cell,
            amount,
        } => rig.fill(party, cell, u32::from(amount)).map(Reply::Filled),
        Call::Begin { party, cell, coins } => rig
            .begin(party, cell, u32::from(coins))
            .map(|()| Reply::Begun),
        Call::Drop(party) => rig.drop_coin(party).map(Reply::Dropped),
        Call::Settle(party) => rig
            .settle(party)
            .map(|(dropped, left)| Reply::Settled { dropped, left }),
    }
}
