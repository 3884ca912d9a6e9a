ghost use Rattle.std.specs.Prelude.{◌<◌, ◌≤◌};

use crate::plan::{GREATEST_LIMIT, Link, Plan};
use crate::random::Random;
use network::table::{MOST_JUNCTIONS, MOST_PIPES};
use network::valve::Valve;
use std::alloc::{AllocError, Global};

// What networks are drawn by: so many junctions and pipes at most, limits of 1 to `widest`,
// pipes between junctions whose numbers are at most `reach` apart, round the ring.
#[derive(Clone, Copy)]
pub struct Shape {
    pub junctions: usize,
    pub pipes: usize,
    pub widest: usize,
    pub reach: usize,
}

impl Random {
    // Mostly few junctions with many pipes of nearly the same size between them; some long and thin networks, some of
    // the largest.
    pub fn draw_shape(&mut self) -> Shape {
        let widest = match self.below(4) {
            0 => GREATEST_LIMIT as usize,
            1 => 40,
            _ => 3,
        };
        let (junctions, pipes, reach) = match self.below(16) {
            0 => (MOST_JUNCTIONS, MOST_PIPES, MOST_JUNCTIONS),
            1 => (MOST_JUNCTIONS, MOST_PIPES, 3),
            2 | 3 => (24, 120, 2),
            4..=7 => (12, 50, 12),
            _ => (6, 20, 6),
        };
        Shape {
            junctions,
            pipes,
            widest,
            reach,
        }
    }

    // Another junction, at most `reach` away.
    fn draw_other(&mut self, junctions: usize, reach: usize, junction: usize) -> usize
        requires two { 2 ≤ junctions }
        requires most { junctions ≤ 64 }
        requires within { junction < junctions }
    {
        let away = 1 + self.below(reach.min(junctions - 1));
        if away < junctions && self.below(2) == 0 {
            (junction + junctions - away) % junctions
        } else {
            (junction + away) % junctions
        }
    }

    // A limit of 1 to `widest`, and of at most 60,000.
    pub fn draw_limit(&mut self, widest: usize) -> u32 {
        1 + self.below(widest).min(GREATEST_LIMIT as usize - 1) as u32
    }

    fn draw_link(&mut self, junctions: usize, shape: &Shape) -> Link
        requires two { 2 ≤ junctions }
        requires most { junctions ≤ 64 }
    {
        let from = self.below(junctions);
        Link {
            from,
            to: self.draw_other(junctions, shape.reach, from),
            limit: self.draw_limit(shape.widest),
            valve: match self.below(4) {
                0 => Valve::Closed,
                _ => Valve::Open,
            },
        }
    }

    // As many junctions as there may be, or fewer, and never fewer than two.
    fn draw_junctions(&mut self, most: usize) -> usize
        ensures two { 2 ≤ result }
        ensures most { result ≤ 64 }
    {
        if self.below(2) == 0 {
            return MOST_JUNCTIONS.min(most).max(2);
        }
        MOST_JUNCTIONS.min(self.below(most)).max(2)
    }

    // A network of the shape.
    pub fn draw_plan(&mut self, heap: Global, shape: &Shape) -> Result<Plan, AllocError> {
        let junctions = self.draw_junctions(shape.junctions);
        let pipes = shape.pipes.saturating_sub(self.below(shape.pipes));
        let pump = self.below(junctions);
        let outlet = self.draw_other(junctions, junctions, pump);
        let mut plan = Plan::new(heap, junctions, pump, outlet)?;
        for _ in 0..pipes {
            plan.add(self.draw_link(junctions, shape))?;
        }
        Ok(plan)
    }
}
