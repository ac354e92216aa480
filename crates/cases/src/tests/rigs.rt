use super::number;
use crate::both_locks::enter;
use dispatch::dispatch::dispatch;
use list_lock::lock::ListLock;
use pft::lock::Pft;
use phase::faults::LockFault;
use phase::kinds::Standing;
use phase::lock::Lock;
use rig::rig::Rig;
use rig_parts::faults::RigFault;
use rig_parts::record::Record;
use schedule::call::Call;
use std::process::Abort;
use till::faults::TillFault;

const ABSENT: Record = Record {
    standing: Standing::Away,
    told: 0,
};

// Makes the calls one after another, each of which is refused with the number beside it, or accepted at 0.
fn answers<L: Lock>(rt: &impl Abort, rig: &mut Rig<L>, calls: &[(Call, u8)]) {
    for (call, expected) in calls {
        assert_eq!(rt; number(dispatch(rig, *call)), *expected);
    }
}

// Every call of a party that the rig does not have. The cell and the coins are bad too, and come later.
fn has_no_party<L: Lock>(rt: &impl Abort, rig: &mut Rig<L>, party: u8) {
    let calls = [
        (Call::RequestRead(party), 11),
        (Call::RequestWrite(party), 11),
        (Call::Advance(party), 11),
        (Call::Leave(party), 11),
        (Call::Look { party, cell: 8 }, 11),
        (
            Call::Fill {
                party,
                cell: 8,
                amount: 1,
            },
            11,
        ),
        (
            Call::Begin {
                party,
                cell: 8,
                coins: 0,
            },
            11,
        ),
        (Call::Drop(party), 11),
        (Call::Settle(party), 11),
    ];
    answers(rt, rig, &calls);
    assert_eq!(rt; rig.record(party), ABSENT);
}

fn parties_below_the_count<L: Lock + Drop>(rt: &impl Abort, mut rig: Rig<L>) {
    has_no_party(rt, &mut rig, 0);
    has_no_party(rt, &mut rig, 255);
    assert!(rt; rig.open(0, 0).is_err() && rig.open(33, 0).is_err());
    has_no_party(rt, &mut rig, 0);
    assert!(rt; rig.open(3, 0).is_ok());
    has_no_party(rt, &mut rig, 3);
    assert!(rt; rig.request_read(2).is_ok());
    assert!(rt; rig.open(32, 9).is_ok());
    has_no_party(rt, &mut rig, 32);
    // The opening has made party 2 away.
    answers(
        rt,
        &mut rig,
        &[(Call::Advance(2), 12), (Call::RequestRead(31), 0)],
    );
}

#[test]
fn a_rig_never_opened_has_no_parties_and_an_open_one_those_below_its_count(rt: HostRuntime) {
    parties_below_the_count::<Pft>(&rt, Rig::unopened());
    parties_below_the_count::<ListLock>(&rt, Rig::unopened());
}

fn cells_and_their_limit<L: Lock + Drop>(rt: &impl Abort, mut rig: Rig<L>) {
    assert!(rt; rig.open(2, 0).is_ok());
    // The standing comes before the cell.
    assert_eq!(rt; rig.fill(0, 8, 1), Err(RigFault::OfLock(LockFault::Unfit)));
    assert!(rt; enter(&mut rig, 0).is_ok());
    assert_eq!(rt; rig.look(0, 8), Err(RigFault::OfTill(TillFault::NoCell)));
    assert_eq!(rt;
        rig.fill(0, 8, 4_294_967_295),
        Err(RigFault::OfTill(TillFault::NoCell))
    );
    let fills = [
        (99_999_998, Ok(99_999_998)),
        (2, Err(RigFault::OfTill(TillFault::PastLimit))),
        (4_294_967_295, Err(RigFault::OfTill(TillFault::PastLimit))),
        (1, Ok(99_999_999)),
        (1, Err(RigFault::OfTill(TillFault::PastLimit))),
        (0, Ok(99_999_999)),
    ];
    for (amount, answer) in fills {
        assert_eq!(rt; rig.fill(0, 7, amount), answer);
    }
    assert_eq!(rt; rig.look(0, 6), Ok(0));
}

#[test]
fn a_cell_holds_99_999_999_at_most(rt: HostRuntime) {
    cells_and_their_limit::<Pft>(&rt, Rig::unopened());
    cells_and_their_limit::<ListLock>(&rt, Rig::unopened());
}

fn fill(cell: u8, amount: u8) -> Call {
    Call::Fill {
        party: 0,
        cell,
        amount,
    }
}

fn begin(cell: u8, coins: u8) -> Call {
    Call::Begin {
        party: 0,
        cell,
        coins,
    }
}

fn a_payout_and_its_refusals<L: Lock + Drop>(rt: &impl Abort, mut rig: Rig<L>) {
    assert!(rt; rig.open(2, 0).is_ok());
    assert!(rt; enter(&mut rig, 0).is_ok());
    let calls = [
        (fill(3, 2), 0),
        (Call::Drop(0), 33),
        (begin(3, 3), 35),
        (begin(3, 0), 32),
        (begin(3, 1), 0),
        // The cell comes before the payout, and the open payout before the coins.
        (begin(8, 0), 21),
        (begin(3, 0), 31),
    ];
    answers(rt, &mut rig, &calls);
    // Nothing of a refused opening is done.
    assert!(rt; rig.open(0, 0).is_err());
    answers(
        rt,
        &mut rig,
        &[
            (Call::Leave(0), 13),
            (Call::Leave(1), 12),
            (Call::Drop(1), 12),
        ],
    );
    assert_eq!(rt; rig.drop_coin(0), Ok(0));
    assert_eq!(rt; rig.look(0, 3), Ok(1));
    answers(rt, &mut rig, &[(Call::Drop(0), 34)]);
    assert_eq!(rt; rig.settle(0), Ok((1, 0)));
    answers(rt, &mut rig, &[(Call::Settle(0), 33), (Call::Leave(0), 0)]);
}

#[test]
fn a_payout_is_refused_so(rt: HostRuntime) {
    a_payout_and_its_refusals::<Pft>(&rt, Rig::unopened());
    a_payout_and_its_refusals::<ListLock>(&rt, Rig::unopened());
}

fn an_accepted_opening<L: Lock + Drop>(rt: &impl Abort, mut rig: Rig<L>) {
    assert!(rt; rig.open(2, 0).is_ok());
    assert!(rt; enter(&mut rig, 0).is_ok());
    answers(
        rt,
        &mut rig,
        &[
            (Call::RequestWrite(1), 0),
            (fill(0, 5), 0),
            (begin(0, 5), 0),
        ],
    );
    assert!(rt; rig.open(2, 0).is_ok());
    assert_eq!(rt; rig.record(0), ABSENT);
    assert_eq!(rt; rig.record(1), ABSENT);
    assert!(rt; enter(&mut rig, 1).is_ok());
    assert_eq!(rt; rig.look(1, 0), Ok(0));
    answers(rt, &mut rig, &[(Call::Settle(1), 33)]);
}

#[test]
fn an_opening_empties_the_cells_and_ends_the_payout(rt: HostRuntime) {
    an_accepted_opening::<Pft>(&rt, Rig::unopened());
    an_accepted_opening::<ListLock>(&rt, Rig::unopened());
}

fn told<L: Lock>(rig: &Rig<L>) -> [u16; 4] {
    [
        rig.record(0).told,
        rig.record(1).told,
        rig.record(2).told,
        rig.record(3).told,
    ]
}

// At the last call of each row a writer posts or enters, or a party asks. `gone` is what the advance of a writer that has
// left is refused with, 0 where it is going out.
fn told_of_two_writers<L: Lock + Drop>(rt: &impl Abort, mut rig: Rig<L>, gone: u8) {
    assert!(rt; rig.open(4, 0).is_ok());
    let posted = [
        (Call::RequestWrite(0), 0),
        (Call::RequestWrite(1), 0),
        (Call::RequestWrite(2), 0),
        (Call::Advance(0), 0),
        (Call::Advance(0), 0),
    ];
    answers(rt, &mut rig, &posted);
    assert_eq!(rt; told(&rig), [0, 0, 0, 0]);
    answers(
        rt,
        &mut rig,
        &[(Call::Advance(0), 0), (Call::RequestWrite(3), 0)],
    );
    assert_eq!(rt; told(&rig), [0, 1, 1, 0]);
    let second = [
        (Call::Leave(0), 0),
        (Call::Advance(0), gone),
        (Call::Advance(1), 0),
        (Call::Advance(1), 0),
        (Call::Advance(1), 0),
    ];
    answers(rt, &mut rig, &second);
    assert_eq!(rt; told(&rig), [0, 0, 2, 1]);
}

#[test]
fn a_waiting_party_is_told_of_each_writer_that_enters(rt: HostRuntime) {
    told_of_two_writers::<Pft>(&rt, Rig::unopened(), 0);
    told_of_two_writers::<ListLock>(&rt, Rig::unopened(), 12);
}
