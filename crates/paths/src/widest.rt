ghost use Rattle.paths.specs.Widths.{Width, unbounded, width, Wider, narrowed, width_means, width_laws};

use crate::metric::PathMetric;

// The smallest weight on the path, the greater the better. Only the path with no pipe is unbounded, and it is the best:
// an Option of a number would put None below all numbers. No way is Litres(0): a weight of 0 makes any length "none", so that
// a variant of its own would say the same twice.
#[derive(Clone, Copy, PartialEq, Eq, PartialOrd, Ord, Debug)]
pub enum Widest {
    Litres(u32),
    Unbounded,
}

impl PathMetric for Widest {
    ghost Lengths = { Width };

    ghost means = { width_means };

    ghost good = { Wider };

    ghost start = { unbounded };

    ghost none = { width 0 };

    ghost extended = { narrowed };

    ghost laws = { width_laws };

    fn no_pipe() -> Widest {
        Widest::Unbounded
    }

    fn no_way() -> Widest {
        Widest::Litres(0)
    }

    fn at_least(&self, other: &Widest) -> bool {
        self >= other
    }

    fn extend(&self, weight: u32) -> Widest {
        (*self).min(Widest::Litres(weight))
    }
}
