#![tactic(auto)]

ghost use Rattle.std.specs.Prelude.{◌≡◌, ◌+◌, ◌*◌, ◌<◌, ◌≤◌, ◌++◌, length, take, drop, IfOk};
ghost use Rattle.listing_lines.specs.Lines.{line, text, last_line, refusal_line};
ghost use Rattle.pft.specs.Model.{state, opened, answer, after};
ghost use Rattle.schedule.specs.View.{words, calls};
ghost use Rattle.listing_text.specs.Listing.{call_at, line_at, last, lines_from, longest, Suffices, Listed, Printed};

mod text;

use crate::text::Text;
use listing_lines::faults::ListingFault;
use listing_lines::lines::{Line, last_line, refusal_line};
use pft::lock::Pft;
use pft_steps::words::Words;
use phase::kinds::LockCall;
use phase::lock::{Lock, make};
use schedule::faults::ScheduleFault;
use schedule::view::Schedule;

/// The bytes of the longest listing: 4,096 lines of refused words, 14 bytes each, and the last line's 36.
pub const MOST: usize = 57380;

/// As many bytes of an input as the program has to read: one more than the longest schedule has. What follows them does not
/// change the text.
#[tactic(auto, using(crate::proofs::Places::suffices))]
pub fn enough() -> u64
    ensures answer { result ≡ 8193 }
    ensures suffices { Suffices result }
{
    8192 + 1
}

/// Lists a schedule, run on a phase-fair ticket lock for 32 parties from count 0, into the caller's space, and answers
/// the length of the text. Refused, with the space as it was, if the space is below `MOST` bytes or the schedule is no
/// schedule.
pub fn listing_text(input: &[u8], out: &mut [u8]) -> Result<usize, ListingFault>
    ensures bytes { Listed input.now out.old result out.new }
    ensures within { IfOk result (λ length_of. length_of ≤ length out.old) }
{
    if out.len() < MOST {
        return Err(ListingFault::Space);
    }
    let schedule = Schedule::try_from(input)?;
    let mut lock = new_lock();
    Ok(list_words(&schedule, &mut lock, out))
}

/// What the program prints for some input: the listing, or the one line of a schedule that is refused. Refused, with the
/// space as it was, if the space is below `MOST` bytes.
pub fn print_text(input: &[u8], out: &mut [u8]) -> Result<usize, ListingFault>
    ensures bytes { Printed input.now out.old result out.new }
    ensures within { IfOk result (λ length_of. length_of ≤ length out.old) }
{
    match listing_text(input, out) {
        Err(ListingFault::OfSchedule(fault)) => Ok(put_refusal(out, fault)),
        listed => listed,
    }
}

fn new_lock() -> Pft
    ensures { state result ≡ opened 32 0 }
{
    let mut lock = Pft::unopened();
    let _ = lock.open(32, 0);
    lock
}

// Writes the line of a refused schedule at the start of the space.
fn put_refusal(out: &mut [u8], fault: ScheduleFault) -> usize
    requires { 9 ≤ length out.old }
    ensures behind { result ≡ 9 }
    ensures after { out.new ≡ refusal_line fault ++ drop 9 out.old }
{
    let line = refusal_line(fault);
    let mut printed = Text::new(out);
    printed.put(line.bytes());
    printed.len
}

fn line_of(words: Words) -> Line
    ensures { text result ≡ last_line words.rin words.rout words.win words.wout }
{
    last_line([words.rin, words.rout, words.win, words.wout])
}

// Makes a word's call on the lock, and gives the word's line.
fn step(lock: &mut Pft, place: u16, word: u16, call: LockCall) -> Line
    ensures line { text result ≡ line place word (answer call (state lock.old)) }
    ensures words { state lock.new ≡ after call (state lock.old) }
{
    let answer = make(lock, call);
    Line::new(place, word, answer)
}

// Makes the call of the word at a place, and gives the word's line.
fn list_word(schedule: &Schedule, place: u16, lock: &mut Pft) -> Line
    requires { (0 < place) × (place ≤ length (words schedule.now)) × (place ≤ length (calls schedule.now)) }
    ensures line { text result ≡ line_at schedule.now place (state lock.old) }
    ensures words { state lock.new ≡ after (call_at schedule.now place) (state lock.old) }
{
    let word = schedule.word(place).unwrap();
    let call = schedule.call(place).unwrap();
    step(lock, place, word, call)
}

// Lists all words on a lock as it stands, up to the last line.
fn list_calls(schedule: &Schedule, lock: &mut Pft, text: &mut Text)
    requires { text.old.len + 14 * length (words schedule.now) ≤ length text.old.space.now }
    ensures same_reference { text.new.space.ghost_name ≡ text.old.space.ghost_name }
    ensures written { take text.new.len text.new.space.now ++ last (state lock.new) ≡ take text.old.len text.old.space.now ++ lines_from 1 (state lock.old) (words schedule.now) (calls schedule.now) }
    ensures rest { drop text.new.len text.new.space.now ≡ drop text.new.len text.old.space.now }
    ensures room { length text.new.space.now ≡ length text.old.space.now }
    ensures short { text.new.len ≤ text.old.len + 14 * length (words schedule.now) }
{
    for place in 1..=schedule.len() {
        let line = list_word(schedule, place, lock);
        text.put(line.bytes());
    }
}

// Lists all words on a lock as it stands, from the start of the space on, and answers the length of the text.
fn list_words(schedule: &Schedule, lock: &mut Pft, out: &mut [u8]) -> usize
    requires { longest ≤ length out.old }
    ensures fits { result ≤ length out.old }
    ensures behind { result ≡ length (lines_from 1 (state lock.old) (words schedule.now) (calls schedule.now)) }
    ensures after { let listed = lines_from 1 (state lock.old) (words schedule.now) (calls schedule.now) in out.new ≡ listed ++ drop (length listed) out.old }
{
    let mut text = Text::new(out);
    list_calls(schedule, lock, &mut text);
    let last = line_of(lock.words());
    text.put(last.bytes());
    text.len
}
