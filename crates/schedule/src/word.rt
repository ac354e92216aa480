ghost use Rattle.std.specs.Prelude.{◌≡◌};
ghost use Rattle.schedule.specs.Word.{action_call, read_word};

use crate::faults::WordFault;
use phase::kinds::LockCall;

/// A word of two bytes, the high one first.
pub fn word_of(high: u8, low: u8) -> u16
    ensures { result ≡ Rattle.schedule.specs.Word.word_of high low }
{
    u16::from_be_bytes([high, low])
}

/// The call of an action's number, if it is one.
fn call_by(action: u8, party: u8) -> Option<LockCall>
    ensures { result ≡ action_call action party }
{
    match action {
        0 => Some(LockCall::RequestRead(party)),
        1 => Some(LockCall::RequestWrite(party)),
        2 => Some(LockCall::Advance(party)),
        3 => Some(LockCall::Leave(party)),
        _ => None,
    }
}

/// What a word calls. The action is its upper 4 bits and the party the next 5, and the other 7 must be 0.
pub fn read_word(high: u8, low: u8) -> Result<LockCall, WordFault>
    ensures { result ≡ read_word high low }
{
    let party = high % 16 * 2 + low / 128;
    let call = call_by(high / 16, party).ok_or(WordFault::Action)?;
    if low % 128 != 0 {
        return Err(WordFault::Unused);
    }
    Ok(call)
}
