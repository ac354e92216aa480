ghost use Rattle.pft_steps.specs.Wrapping.{Wrapping};

/// The law of wrapping sums, for every width. All sums on the four words are sums of width 32.
#[tactic(auto, using(crate::proofs::Wrap::wrap_fits, crate::proofs::Wrap::wrap_plain, crate::proofs::Wrap::wrap_more, crate::proofs::Wrap::wrap_cancel))]
pub fn sums_wrap()
    ensures { Wrapping }
{}
