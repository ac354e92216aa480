use phase::kinds::Standing;

/// What a rig has on record of a party.
#[derive(Clone, Copy, PartialEq, Eq, Debug, Default)]
pub struct Record {
    pub standing: Standing,
    /// For a party that has requested and not entered, the writers that have entered since its request; else 0.
    pub told: u16,
}
