ghost use Rattle.std.specs.Prelude.{◌≡◌, ℕ, ◌≤◌, false, length, if◌then◌else◌, IfOk};
ghost use Rattle.phase.specs.Book.{Book, some, bars, near, freed, leads, without, standing, read_as, advance_as};
ghost use Rattle.phase.specs.Line.{has, place, is_writer};
ghost use Rattle.list_lock.specs.Shown.{is_out};
ghost use Rattle.list_lock.specs.Turns.{puts};

use arrayvec::ArrayVec;
use phase::faults::LockFault;
use phase::kinds::{Letter, Standing};

/// What a request to read makes of its caller's standing, and its letter. `barred`: a writer is posted or
/// inside.
pub(crate) fn on_request_read(s: Standing, barred: bool) -> Result<(Standing, Letter), LockFault>
    ensures turned { (b : Book) (p : ℕ) → some bars b.standings ≡ barred → read_as s p b ≡ puts result p b }
    ensures alike { IfOk result (λ t. (is_writer t.0 ≡ is_writer s) × (is_out t.0 ≡ false)) }
{
    match s {
        Standing::Away if barred => Ok((Standing::HeldOff, Letter::Held)),
        Standing::Away => Ok((Standing::Cleared, Letter::Cleared)),
        _ => Err(LockFault::Unfit),
    }
}

/// What an advance makes of its caller's standing, and its letter. `first`: the caller is first in the line.
/// `awaited`: a reader is cleared or inside. A caller that waits keeps its standing.
pub(crate) fn on_advance(
    s: Standing,
    first: bool,
    awaited: bool,
) -> Result<(Standing, Letter), LockFault>
    requires { is_out s ≡ false }
    ensures turned { (b : Book) (p : ℕ) → standing b p ≡ s → leads b.line p ≡ first → some near b.standings ≡ awaited → advance_as s p b ≡ puts result p b }
    ensures alike { IfOk result (λ t. (is_writer t.0 ≡ is_writer s) × (is_out t.0 ≡ false)) }
{
    match s {
        Standing::HeldOff => Ok((s, Letter::Waits)),
        Standing::Cleared => Ok((Standing::Reading, Letter::Entered)),
        Standing::InLine if first => Ok((Standing::Called, Letter::Called)),
        Standing::InLine => Ok((s, Letter::Waits)),
        Standing::Called => Ok((Standing::Posted, Letter::Posted)),
        Standing::Posted if awaited => Ok((s, Letter::Waits)),
        Standing::Posted => Ok((Standing::Writing, Letter::Entered)),
        _ => Err(LockFault::Unfit),
    }
}

/// A writer at this standing holds off a reader's request.
fn holds_off(s: Standing) -> bool
    ensures { result ≡ bars s }
{
    matches!(s, Standing::Posted | Standing::Writing)
}

/// A reader at this standing keeps a posted writer out.
fn is_near(s: Standing) -> bool
    ensures { result ≡ near s }
{
    matches!(s, Standing::Cleared | Standing::Reading)
}

/// A party's standing once the readers held off are cleared.
pub(crate) fn once_free(s: Standing) -> Standing
    ensures { result ≡ freed s }
{
    match s {
        Standing::HeldOff => Standing::Cleared,
        _ => s,
    }
}

/// Whether a writer is posted or inside.
pub(crate) fn any_bars(standings: &[Standing]) -> bool
    ensures { result ≡ some bars standings.now }
{
    standings.iter().any(|s| holds_off(*s))
}

/// Whether a reader is cleared or inside.
pub(crate) fn any_near(standings: &[Standing]) -> bool
    ensures { result ≡ some near standings.now }
{
    standings.iter().any(|s| is_near(*s))
}

/// Whether the party is first in the line.
pub(crate) fn is_first(line: &[u8], party: u8) -> bool
    ensures { result ≡ leads line.now party }
{
    line.first() == Some(&party)
}

/// The number of writers before the party, 0 where it is not in the line.
pub(crate) fn place_in(line: &[u8], party: u8) -> u8
    requires { length line.now ≤ 32 }
    ensures { result ≡ (if has party line.now then place party line.now else 0) }
{
    let place = line.iter().position(|writer| *writer == party);
    place.unwrap_or(0) as u8
}

/// Takes the party off the line.
pub(crate) fn take_off(line: &mut ArrayVec<u8, 32>, party: u8)
    ensures gone { line.new.items ≡ without party line.old.items }
    ensures short { length line.new.items ≤ length line.old.items }
{
    line.retain(|writer| *writer != party);
}
