ghost use Rattle.std.specs.Prelude.{◌≡◌, ◌%◌, ◌^◌, ◌<◌, ◌≢◌};

/// One reader, in rin and rout.
pub const RINC: u32 = 0x100;
/// The phase bit of rin: the lowest bit of the ticket of the writer that is posted or inside.
pub const PHID: u32 = 0x1;
/// The bit of rin that says that a writer is posted or inside.
pub const PRES: u32 = 0x2;
/// Both of a writer's bits in rin.
pub const WBITS: u32 = 0x3;
/// What a writer that leaves clears in rin.
pub const LOW_BYTE: u32 = 0xff;

/// The four words of the lock.
///
/// ```text
///        31                            8 7         2   1    0
/// rin   | readers that have asked       | always 0 |PRES|PHID|
/// rout  | readers that have left        | always 0           |
/// win   | the next ticket                                    |
/// wout  | the ticket of the first writer in the line         |
/// ```
///
/// PHID is set only beside PRES. All counts wrap. With no writer in the line wout equals win.
#[derive(Clone, Copy)]
pub struct Words {
    pub rin: u32,
    pub rout: u32,
    pub win: u32,
    pub wout: u32,
    ghost fits: { (rin < 2 ^ 32) × (rout < 2 ^ 32) × (win < 2 ^ 32) × (wout < 2 ^ 32) },
    ghost whole: { rout % 256 ≡ 0 },
    ghost flags: { (rin % 256 < 4) × (rin % 256 ≢ 1) },
}

/// The four words as plain numbers. By itself a step may lead out of `Words`: a writer that posted twice
/// would set bits beyond its flags.
#[derive(Clone, Copy)]
pub struct Four {
    pub rin: u32,
    pub rout: u32,
    pub win: u32,
    pub wout: u32,
}

impl From<Words> for Four {
    ghost use Rattle.pft_steps.specs.Steps.{four};

    ghost from_gives = { λ words result. result ≡ four words };

    fn from(words: Words) -> Four {
        Four {
            rin: words.rin,
            rout: words.rout,
            win: words.win,
            wout: words.wout,
        }
    }
}
