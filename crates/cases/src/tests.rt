mod rigs;

use list_lock::lock::ListLock;
use listing_lines::lines::refusal_line;
use listing_text::{MOST, listing_text, print_text};
use pft::lock::Pft;
use phase::faults::Fault;
use phase::kinds::LockCall;
use phase::lock::{Lock, make};
use schedule::faults::{PlacedFault, ScheduleFault};
use std::alloc::Global;
use std::process::Abort;
use std::test::Fail;

// The number of a refusal, 0 where the call is accepted.
fn number<T: Copy, F: Fault>(answer: Result<T, F>) -> u8 {
    match answer {
        Ok(_) => 0,
        Err(fault) => fault.number(),
    }
}

#[test]
fn a_lock_opens_for_1_to_32_parties(rt: HostRuntime) {
    for (parties, expected) in [(0, 1), (1, 0), (32, 0), (33, 1)] {
        assert_eq!(rt; number(Pft::unopened().open(parties, 0)), expected);
        assert_eq!(rt; number(ListLock::unopened().open(parties, 0)), expected);
    }
}

// The letter of a call, x where it is refused.
fn letter<L: Lock>(lock: &mut L, call: LockCall) -> char {
    match make(lock, call) {
        Ok(letter) => char::from(letter),
        Err(_) => 'x',
    }
}

#[test]
fn a_writer_leaves_in_two_steps_or_in_one(rt: HostRuntime) {
    let mut two = Pft::unopened();
    let mut one = ListLock::unopened();
    assert!(rt; two.open(3, 0).is_ok());
    assert!(rt; one.open(3, 7).is_ok());
    let steps = [
        (LockCall::RequestRead(0), 'c', 'c'),
        (LockCall::RequestWrite(1), 'q', 'q'),
        (LockCall::RequestWrite(2), 'q', 'q'),
        (LockCall::Advance(2), 'w', 'w'),
        (LockCall::Advance(1), 'k', 'k'),
        (LockCall::Advance(0), 'n', 'n'),
        (LockCall::Advance(1), 'p', 'p'),
        (LockCall::Advance(1), 'w', 'w'),
        (LockCall::Leave(0), 'a', 'a'),
        (LockCall::RequestRead(0), 'h', 'h'),
        (LockCall::Advance(1), 'n', 'n'),
        (LockCall::Advance(0), 'w', 'w'),
        (LockCall::Leave(1), 'o', 'a'),
        (LockCall::Advance(2), 'w', 'k'),
        (LockCall::Advance(1), 'g', 'x'),
        (LockCall::Advance(0), 'n', 'n'),
    ];
    for (call, in_two, in_one) in steps {
        assert_eq!(rt; letter(&mut two, call), in_two);
        assert_eq!(rt; letter(&mut one, call), in_one);
    }
    assert_eq!(rt; two.ahead(2), 0);
    assert_eq!(rt; one.ahead(2), 0);
}

fn prints(rt: &impl Abort, heap: Global, input: &[u8], text: &[u8]) -> Result<(), Fail> {
    let mut space = vec![in heap; 7u8; MOST]?;
    let length = print_text(input, &mut space)?;
    assert_eq!(rt; &space[0..length], text);
    assert!(rt; length == MOST || space[MOST - 1] == 7);
    Ok(())
}

fn lists(rt: &impl Abort, heap: Global, words: &[u16], text: &[u8]) -> Result<(), Fail> {
    let mut input = Vec::new(heap);
    for word in words {
        input.extend_from_slice(&word.to_be_bytes())?;
    }
    prints(rt, heap, &input, text)
}

#[test]
fn the_program_prints_these_listings(rt: HostRuntime) -> Result<(), Fail> {
    let heap = rt.alloc();
    lists(&rt, heap, &[], b"00000000 00000000 00000000 00000000\n")?;
    let text =
        b"0001 0000 c\n0002 2000 n\n0003 3000 a\n0004 3000 x12\n00000100 00000100 00000000 00000000\n";
    lists(&rt, heap, &[0x0000, 0x2000, 0x3000, 0x3000], text)?;
    // The last party, and a party that is away.
    let text = b"0001 0F80 c\n0002 2F80 n\n0003 2F00 x12\n00000100 00000000 00000000 00000000\n";
    lists(&rt, heap, &[0x0f80, 0x2f80, 0x2f00], text)
}

// The first schedule of the folder `examples`, and the second below it.
#[test]
fn two_writers_are_listed_so(rt: HostRuntime) -> Result<(), Fail> {
    let heap = rt.alloc();
    let two_writers = [
        0x1000, 0x1080, 0x2000, 0x0100, 0x2000, 0x2000, 0x2100, 0x3100, 0x0100, 0x2000, 0x3080,
        0x3000, 0x2000, 0x2080, 0x2080, 0x2100, 0x3100, 0x2080, 0x3080, 0x2080,
    ];
    let text =
        b"0001 1000 q\n0002 1080 q\n0003 2000 k\n0004 0100 c\n0005 2000 p\n0006 2000 w\n0007 2100 n\n0008 3100 a\n0009 0100 h\n0010 2000 n\n0011 3080 x12\n0012 3000 o\n0013 2000 g\n0014 2080 k\n0015 2080 p\n0016 2100 n\n0017 3100 a\n0018 2080 n\n0019 3080 o\n0020 2080 g\n00000200 00000200 00000002 00000002\n";
    lists(&rt, heap, &two_writers, text)
}

#[test]
fn a_reader_around_a_writer_is_listed_so(rt: HostRuntime) -> Result<(), Fail> {
    let heap = rt.alloc();
    let around = [
        0x0000, 0x1080, 0x2080, 0x2080, 0x0100, 0x2000, 0x2080, 0x3000, 0x2080, 0x2100, 0x3080,
        0x2100, 0x2080, 0x3100,
    ];
    let text =
        b"0001 0000 c\n0002 1080 q\n0003 2080 k\n0004 2080 p\n0005 0100 h\n0006 2000 n\n0007 2080 w\n0008 3000 a\n0009 2080 n\n0010 2100 w\n0011 3080 o\n0012 2100 n\n0013 2080 g\n0014 3100 a\n00000200 00000200 00000001 00000001\n";
    lists(&rt, heap, &around, text)
}

// Schedules that tell the lock from four that are nearly right, by the letter of the last word.
#[test]
fn the_last_letter_tells_a_wrong_lock(rt: HostRuntime) -> Result<(), Fail> {
    let heap = rt.alloc();
    // w, if a reader waits for PRES to fall.
    let words = [
        0x1000, 0x2000, 0x2000, 0x2000, 0x0080, 0x3000, 0x2000, 0x1000, 0x2000, 0x2000, 0x2080,
    ];
    let text =
        b"0001 1000 q\n0002 2000 k\n0003 2000 p\n0004 2000 n\n0005 0080 h\n0006 3000 o\n0007 2000 g\n0008 1000 q\n0009 2000 k\n0010 2000 p\n0011 2080 n\n00000103 00000000 00000002 00000001\n";
    lists(&rt, heap, &words, text)?;
    // w, if a writer waits for rin to equal rout.
    let text =
        b"0001 1000 q\n0002 2000 k\n0003 2000 p\n0004 0080 h\n0005 2000 n\n00000102 00000000 00000001 00000000\n";
    lists(&rt, heap, &[0x1000, 0x2000, 0x2000, 0x0080, 0x2000], text)?;
    // h, if wout is raised before rin is cleared.
    let text =
        b"0001 1000 q\n0002 2000 k\n0003 2000 p\n0004 2000 n\n0005 3000 o\n0006 0080 c\n00000100 00000000 00000001 00000000\n";
    lists(
        &rt,
        heap,
        &[0x1000, 0x2000, 0x2000, 0x2000, 0x3000, 0x0080],
        text,
    )?;
    // w, if rin is saved after the addition.
    let text =
        b"0001 1000 q\n0002 2000 k\n0003 2000 p\n0004 2000 n\n00000002 00000000 00000001 00000000\n";
    lists(&rt, heap, &[0x1000, 0x2000, 0x2000, 0x2000], text)
}

#[test]
fn a_refused_schedule_prints_one_line(rt: HostRuntime) -> Result<(), Fail> {
    let heap = rt.alloc();
    prints(&rt, heap, &[0x00], b"x42 0000\n")?;
    // An odd length hides a bad word.
    prints(&rt, heap, &[0x90, 0x00, 0x00], b"x42 0000\n")?;
    prints(&rt, heap, &[0x90, 0x00], b"x43 0001\n")?;
    prints(&rt, heap, &[0x00, 0x00, 0x40, 0x00], b"x43 0002\n")?;
    // Within a word the action comes first, and of two bad words the first.
    prints(&rt, heap, &[0x90, 0x01, 0x20, 0x01], b"x43 0001\n")?;
    prints(&rt, heap, &[0x20, 0x01], b"x44 0001\n")?;
    prints(&rt, heap, &[0x00, 0x00, 0x20, 0x40], b"x44 0002\n")?;
    let long = vec![in heap; 0u8; 8193]?;
    prints(&rt, heap, &long, b"x41 0000\n")
}

#[test]
fn the_longest_schedule_fits(rt: HostRuntime) -> Result<(), Fail> {
    let heap = rt.alloc();
    let long = vec![in heap; 0u8; 8192]?;
    let mut space = vec![in heap; 7u8; MOST]?;
    // One line of 12 bytes, 4,095 of 14, and the last.
    let length = print_text(&long, &mut space)?;
    assert_eq!(rt; length, 12 + 4095 * 14 + 36);
    assert_eq!(rt; &space[57328..57342], b"4096 0000 x12\n".as_slice());
    assert_eq!(rt;
        &space[57342..57378],
        b"00000100 00000000 00000000 00000000\n".as_slice()
    );
    Ok(())
}

#[test]
fn a_refusal_leaves_the_space_as_it_was(rt: HostRuntime) -> Result<(), Fail> {
    let heap = rt.alloc();
    let mut space = vec![in heap; 7u8; MOST]?;
    match listing_text(&[0x90, 0x00], &mut space) {
        Ok(_) => assert!(rt; false),
        Err(fault) => {
            assert_eq!(rt; fault.number(), 43);
            assert_eq!(rt; fault.place(), 1);
        }
    }
    assert!(rt; space[0] == 7 && space[8] == 7);
    let mut small = vec![in heap; 7u8; 57379]?;
    match print_text(&[0x90, 0x00], &mut small) {
        Ok(_) => assert!(rt; false),
        Err(fault) => assert_eq!(rt; fault.number(), 52),
    }
    assert!(rt; small[0] == 7);
    Ok(())
}

#[test]
fn a_line_can_be_copied(rt: HostRuntime) {
    let line = refusal_line(ScheduleFault::OddLength);
    let copy = line;
    for each in [line, copy] {
        assert_eq!(rt; each.bytes(), &b"x42 0000\n"[..]);
    }
}
