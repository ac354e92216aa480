ghost use Rattle.std.specs.Prelude.{◌≡◌, ◌+◌, ◌≤◌, [], ◌++◌, length, slice_index};
ghost use Rattle.phase.specs.Letters.{code_of};
ghost use Rattle.listing_lines.specs.Lines.{line, outcome, refusal, text, last_line, refusal_line};

use crate::digits::digits;
use crate::line::LONGEST_LINE;
pub use crate::line::Line;
use phase::faults::{Fault, LockFault};
use phase::kinds::Letter;
use schedule::faults::{PlacedFault, ScheduleFault};

impl Line {
    /// The line of the word at a place and of what it came to.
    pub fn new(place: u16, word: u16, answer: Result<Letter, LockFault>) -> Line
        ensures { text result ≡ line place word answer }
    {
        let mut line = Line::empty();
        line.put(&digits::<4, 10>(place.into()));
        line.put(b" ");
        line.put(&digits::<4, 16>(word.into()));
        line.put(b" ");
        line.put_outcome(answer);
        line.put(b"\n");
        line
    }

    pub fn bytes(&self) -> &[u8]
        ensures { result.now ≡ text self.now }
    {
        &self.bytes[..self.len]
    }
}

/// The one line of a schedule that is refused.
pub fn refusal_line(fault: ScheduleFault) -> Line
    ensures { text result ≡ refusal_line fault }
{
    let mut line = Line::empty();
    line.put(&refusal_mark(fault));
    line.put(b" ");
    line.put(&digits::<4, 10>(fault.place().into()));
    line.put(b"\n");
    line
}

/// The line of a lock's four words, after the last word of a schedule.
pub fn last_line(words: [u32; 4]) -> Line
    ensures { text result ≡ last_line (slice_index words 0) (slice_index words 1) (slice_index words 2) (slice_index words 3) }
{
    let mut line = Line::empty();
    // A blank behind each word, and behind the last the end of the line.
    for (word, end) in words.iter().zip(b"   \n") {
        let [a, b, c, d, e, f, g, h] = digits::<8, 16>(*word);
        line.put(&[a, b, c, d, e, f, g, h, *end]);
    }
    line
}

impl Line {
    fn empty() -> Line
        ensures { text result ≡ [] }
    {
        Line {
            bytes: [0; LONGEST_LINE],
            len: 0,
        }
    }

    /// Appends bytes.
    #[tactic(auto, using(std::proofs::lemmas::Slice::overwrites))]
    fn put(&mut self, bytes: &[u8])
        requires { length (text self.old) + length bytes.now ≤ LONGEST_LINE }
        ensures { text self.new ≡ text self.old ++ bytes.now }
    {
        let end = self.len + bytes.len();
        self.bytes[self.len..end].copy_from_slice(bytes);
        self.len = end;
    }

    /// Appends what a word came to.
    fn put_outcome(&mut self, answer: Result<Letter, LockFault>)
        requires { length (text self.old) + 3 ≤ LONGEST_LINE }
        ensures { text self.new ≡ text self.old ++ outcome answer }
    {
        match answer {
            Ok(letter) => self.put(&[letter_byte(letter)]),
            Err(fault) => self.put(&refusal_mark(fault)),
        }
    }
}

/// A letter's character, which is of ASCII.
fn letter_byte(letter: Letter) -> u8
    ensures { result ≡ code_of letter }
{
    char::from(letter) as u8
}

/// A refusal: `x` and the number of its fault.
fn refusal_mark<F: Fault>(fault: F) -> [u8; 3]
    ensures { result ≡ refusal (F.number_of fault) }
{
    let [tens, ones] = digits::<2, 10>(fault.number().into());
    [b'x', tens, ones]
}
