ghost use Rattle.std.specs.Prelude.{◌≤◌};

// How much there is to rate.
#[derive(Clone, Copy)]
pub struct Extent {
    pub steps: usize,
    pub junctions: usize,
    pub pipes: usize,
    ghost short: { steps ≤ 100 },
    ghost small: { junctions ≤ 64 },
    ghost held: { pipes ≤ 512 },
}
