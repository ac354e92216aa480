#![tactic(auto)]

use listing_text::{MOST, enough, print_text};
use std::io;
use std::io::{Read, Write};

// Lists the schedule on standard input.
fn main(rt: HostRuntime) -> io::Result<()> {
    let heap = rt.alloc();
    let mut input = Vec::new(heap);
    let mut source = rt.stdin().take(enough());
    source.read_to_end(&mut input)?;
    let mut space = vec![in heap; 0u8; MOST]?;
    match print_text(&input, &mut space) {
        Ok(length) => rt.stdout().write_all(&space[0..length]),
        // Not reached: the space has `MOST` bytes.
        Err(_) => Ok(()),
    }
}
