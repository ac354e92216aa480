ghost use Rattle.std.specs.Prelude.{◌≡◌, ◌+◌, ◌≤◌, ◌++◌, length, take, drop};

/// Text at the start of the caller's space.
#[derive(Drop)]
pub(crate) struct Text<'a> {
    pub(crate) space: &'a mut [u8],
    pub(crate) len: usize,
}

impl<'a> Text<'a> {
    pub(crate) fn new(space: &'a mut [u8]) -> Text<'a>
        ensures same_reference { result.space.ghost_name ≡ space.entry.ghost_name }
        ensures space { result.space.now ≡ space.old }
        ensures empty { result.len ≡ 0 }
    {
        Text { space, len: 0 }
    }

    /// Appends bytes.
    #[tactic(auto, using(std::proofs::lemmas::Slice::overwrites))]
    pub(crate) fn put(&mut self, bytes: &[u8])
        requires { self.old.len + length bytes.now ≤ length self.old.space.now }
        ensures same_reference { self.new.space.ghost_name ≡ self.old.space.ghost_name }
        ensures len { self.new.len ≡ self.old.len + length bytes.now }
        ensures written { take self.new.len self.new.space.now ≡ take self.old.len self.old.space.now ++ bytes.now }
        ensures rest { drop self.new.len self.new.space.now ≡ drop self.new.len self.old.space.now }
        ensures room { length self.new.space.now ≡ length self.old.space.now }
    {
        let end = self.len + bytes.len();
        self.space[self.len..end].copy_from_slice(bytes);
        self.len = end;
    }
}
