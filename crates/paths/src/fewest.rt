ghost use Rattle.paths.specs.Widths.{unbounded};
ghost use Rattle.paths.specs.Fews.{Few, no_few, few, Fewer, lengthened, few_means, few_laws};

use crate::metric::PathMetric;
use crate::widest::Widest;
use std::cmp::Reverse;

// The number of pipes and the smallest weight: fewer pipes are better, then the greater weight.
// No way is the worst. An Option of the two would be ordered alike, but then every Option of such a pair would be a metric,
// and None would not say that it is the worst length.
#[derive(Clone, Copy, PartialEq, Eq, PartialOrd, Ord, Debug)]
pub enum Fewest {
    NoWay,
    Path { pipes: Reverse<u32>, least: Widest },
}

impl PathMetric for Fewest {
    ghost Lengths = { Few };

    ghost means = { few_means };

    ghost good = { Fewer };

    ghost start = { few 0 unbounded };

    ghost none = { no_few };

    ghost extended = { lengthened };

    ghost laws = { few_laws };

    fn no_pipe() -> Fewest {
        Fewest::Path {
            pipes: Reverse(0),
            least: Widest::Unbounded,
        }
    }

    fn no_way() -> Fewest {
        Fewest::NoWay
    }

    fn at_least(&self, other: &Fewest) -> bool {
        self >= other
    }

    fn extend(&self, weight: u32) -> Fewest {
        match *self {
            Fewest::Path { pipes, least } if weight > 0 && pipes.0 < u32::MAX => Fewest::Path {
                pipes: Reverse(pipes.0 + 1),
                least: least.min(Widest::Litres(weight)),
            },
            _ => Fewest::NoWay,
        }
    }
}
