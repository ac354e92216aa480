ghost use Rattle.std.specs.Prelude.{◌≡◌, ◌/◌, ◌%◌, ◌≤◌, [], length};
ghost use Rattle.schedule.specs.Word.{read_word};
ghost use Rattle.schedule.specs.Schedule.{calls_from, verdict, length_verdict, word_verdict, at_place, pair_at, pair_word, pair_call};
ghost use Rattle.schedule.specs.View.{words, calls, Read};

use crate::faults::ScheduleFault;
use crate::view::Schedule;
use crate::word::{read_word, word_of};
use phase::kinds::LockCall;

impl<'a> Schedule<'a> {
    /// A schedule of no words.
    pub fn empty() -> Schedule<'a>
        ensures { (words result ≡ []) × (calls result ≡ []) }
    {
        Schedule { bytes: &[] }
    }

    /// The number of words, each of which is a call.
    #[tactic(auto, using(crate::proofs::Words::words_length, crate::proofs::Words::calls_length, crate::proofs::Words::calls_within))]
    pub fn len(&self) -> u16
        ensures words { result ≡ length (words self.now) }
        ensures calls { result ≡ length (calls self.now) }
        ensures few { result ≤ 4096 }
    {
        count_words(self.bytes.len())
    }

    /// The word at a place, counted from 1.
    #[tactic(auto, using(crate::proofs::Words::words_place))]
    pub fn word(&self, place: u16) -> Option<u16>
        ensures { result ≡ at_place (words self.now) place }
    {
        word_at(self.bytes, place)
    }

    /// The call of the word at a place, counted from 1.
    #[tactic(auto, using(crate::proofs::Words::calls_place, crate::proofs::Words::calls_within))]
    pub fn call(&self, place: u16) -> Option<LockCall>
        ensures { result ≡ at_place (calls self.now) place }
    {
        call_at(self.bytes, place)
    }
}

impl<'a> TryFrom<&'a [u8]> for Schedule<'a> {
    type Error = ScheduleFault;

    ghost try_from_gives = { λ bytes result. Read bytes.now result };

    fn try_from(bytes: &'a [u8]) -> Result<Self, ScheduleFault> {
        check_length(bytes.len())?;
        check_words(bytes)?;
        Ok(Schedule { bytes })
    }
}

/// At most 4,096 words of two bytes.
fn check_length(length: usize) -> Result<(), ScheduleFault>
    ensures { result ≡ length_verdict length }
{
    if length > 8192 {
        return Err(ScheduleFault::TooLong);
    }
    if length % 2 != 0 {
        return Err(ScheduleFault::OddLength);
    }
    Ok(())
}

fn check_word(place: u16, high: u8, low: u8) -> Result<(), ScheduleFault>
    ensures { result ≡ word_verdict place (read_word high low) }
{
    read_word(high, low).map_err(|fault| ScheduleFault::Word { place, fault })?;
    Ok(())
}

fn count_words(length: usize) -> u16
    requires { length ≤ 8192 }
    ensures { result ≡ length / 2 }
{
    (length / 2) as u16
}

/// The two bytes of the word at a place, counted from 1.
fn pair_at(bytes: &[u8], place: u16) -> Option<(u8, u8)>
    ensures { result ≡ pair_at bytes.now place }
{
    let start = 2 * usize::from(place.checked_sub(1)?);
    let pair = bytes.get(start..start + 2)?;
    Some((pair[0], pair[1]))
}

fn word_at(bytes: &[u8], place: u16) -> Option<u16>
    ensures { result ≡ pair_word (pair_at bytes.now place) }
{
    let (high, low) = pair_at(bytes, place)?;
    Some(word_of(high, low))
}

fn call_at(bytes: &[u8], place: u16) -> Option<LockCall>
    ensures { result ≡ pair_call (pair_at bytes.now place) }
{
    let (high, low) = pair_at(bytes, place)?;
    read_word(high, low).ok()
}

/// Every word in turn, up to the first that is refused.
fn check_words(bytes: &[u8]) -> Result<(), ScheduleFault>
    requires { (length bytes.now ≤ 8192) × (length bytes.now % 2 ≡ 0) }
    ensures { result ≡ verdict (calls_from 1 bytes.now) }
{
    for (i, word) in bytes.chunks_exact(2).enumerate() {
        check_word((i + 1) as u16, word[0], word[1])?;
    }
    Ok(())
}
