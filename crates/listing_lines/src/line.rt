ghost use Rattle.std.specs.Prelude.{◌≡◌, ◌≤◌, length};
ghost use Rattle.listing_lines.specs.declared.line.TheConstants.{LONGEST_LINE};

/// The bytes of the longest line, that of a lock's four words.
pub(crate) const LONGEST_LINE: usize = 36;

/// A line of a listing: the first `len` of the bytes.
#[derive(Clone, Copy)]
pub struct Line {
    pub(crate) bytes: [u8; LONGEST_LINE],
    pub(crate) len: usize,
    ghost within: { (length bytes ≡ LONGEST_LINE) × (len ≤ LONGEST_LINE) },
}
