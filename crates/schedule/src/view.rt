ghost use Rattle.std.specs.Prelude.{◌≡◌, ◌%◌, ◌≤◌, true, length, is_ok};
ghost use Rattle.schedule.specs.Schedule.{calls_from};

/// A schedule in the caller's bytes, in which every word was found good.
#[derive(Drop)]
pub struct Schedule<'a> {
    pub(crate) bytes: &'a [u8],
    ghost short: { length bytes.now ≤ 8192 },
    ghost even: { length bytes.now % 2 ≡ 0 },
    ghost good: { is_ok (calls_from 1 bytes.now) ≡ true },
}
