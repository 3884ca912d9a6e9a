ghost use Rattle.std.specs.Prelude.{◌≡◌, ℕ, ◌≤◌, Decides};
ghost use Rattle.paths.specs.Metrics.{InRange, Laws};

// How paths are measured. The type is a stored length, and `means` says which length it stands for.
// Comparing and extending ask nothing. They promise their answer of none, and of lengths that were extended at most 63
// times from the start by weights of at most 60,000: as far as the laws go, and as a path of 64 junctions can.
pub trait PathMetric: Copy {
    ghost Lengths: { Type 0 };

    ghost means: { Self → Lengths };

    // the first length is at least as good as the second
    ghost good: { Lengths → Lengths → Type 0 };

    // the length of the path with no pipe
    ghost start: { Lengths };

    // the length "none"
    ghost none: { Lengths };

    // a length extended by a step's weight
    ghost extended: { Lengths → ℕ → Lengths };

    ghost laws: { Laws good start none extended };

    fn no_pipe() -> Self
        ensures { means result ≡ start };

    fn no_way() -> Self
        ensures { means result ≡ none };

    fn at_least(&self, other: &Self) -> bool
        ensures { InRange start none extended 63 (means self.now) → InRange start none extended 63 (means other.now) → Decides result (good (means self.now) (means other.now)) };

    fn extend(&self, weight: u32) -> Self
        ensures { InRange start none extended 63 (means self.now) → weight ≤ 60000 → means result ≡ extended (means self.now) weight };
}
