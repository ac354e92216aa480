ghost use Rattle.std.specs.Prelude.{◌≡◌, ◌<◌, ◌≤◌};
ghost use Rattle.listing_lines.specs.Digits.{character, digits};

/// The last `N` digits of a number in a base.
pub(crate) fn digits<const N: usize, const BASE: u32>(n: u32) -> [u8; N]
    requires { (2 ≤ BASE) × (BASE ≤ 16) }
    ensures { result ≡ digits N BASE n }
{
    let mut out = [0; N];
    let mut rest = n;
    for i in (0..N).rev() {
        out[i] = character_of((rest % BASE) as u8);
        rest /= BASE;
    }
    out
}

/// A digit as it is written, with upper-case letters past 9.
fn character_of(digit: u8) -> u8
    requires { digit < 16 }
    ensures { result ≡ character digit }
{
    if digit < 10 {
        b'0' + digit
    } else {
        b'A' + (digit - 10)
    }
}
