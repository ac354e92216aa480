ghost use Rattle.std.specs.Prelude.{◌≡◌, length, replicate, slice_index, slice_set};
ghost use Rattle.rig_parts.specs.Told.{told_next, told_by_writer, told_at_entry};

use phase::kinds::Standing;
use phase::lock::Lock;

/// The told count of each party: how many writers have entered since its request, while it waits.
#[derive(Drop)]
pub struct Told {
    counts: [u16; 32],
    ghost sized: { length counts ≡ 32 },
}

impl Told {
    /// All counts at 0.
    pub fn none() -> Told
        ensures { result.counts ≡ replicate 32 0 }
    {
        Told { counts: [0; 32] }
    }

    /// A party's count, 0 for a party past the last.
    pub fn of(&self, party: u8) -> u16
        ensures { result ≡ slice_index self.now.counts party }
    {
        self.counts.get(usize::from(party)).copied().unwrap_or(0)
    }

    /// A party's count begins anew at 0.
    pub fn restart(&mut self, party: u8)
        ensures { self.new.counts ≡ slice_set self.old.counts party 0 }
    {
        let i = usize::from(party);
        if i < self.counts.len() {
            self.counts[i] = 0;
        }
    }

    /// Notes that a party has entered, on the lock as that stands after the entry.
    pub fn note_entry<L: Lock>(&mut self, lock: &L, party: u8)
        ensures { self.new.counts ≡ told_at_entry (L.Lock.book lock.now) party self.old.counts }
    {
        if lock.standing(party).is_writing() {
            self.note_writer(lock);
        }
        self.restart(party);
    }

    // A writer has entered: each party that waits has one more.
    fn note_writer<L: Lock>(&mut self, lock: &L)
        ensures { self.new.counts ≡ told_by_writer (L.Lock.book lock.now) self.old.counts }
    {
        for (party, count) in self.counts.iter_mut().enumerate() {
            *count = next_count(lock.standing(party as u8), *count);
        }
    }
}

fn next_count(standing: Standing, count: u16) -> u16
    ensures { result ≡ told_next standing count }
{
    if standing.is_waiting() {
        count.saturating_add(1)
    } else {
        count
    }
}
