ghost use Rattle.std.specs.Prelude.{◌≡◌};
ghost use Rattle.network.specs.Valves.{room};
ghost use Rattle.random_trials.specs.Spreads.{only, has, widened, spread, governs};

use crate::plan::{Link, Plan};
use network::report::Report;
use network::step::Direction;
use network::valve::Valve;

// Sets, rooms, governing pipes and what reaches what are told here a second time too, to try those of the other crates.

// The word with one junction.
fn only(junction: usize) -> u64
    ensures { result ≡ only junction }
{
    if junction < 64 { 1u64 << junction } else { 0 }
}

// Whether the set has a junction.
fn has(set: u64, junction: usize) -> bool
    ensures { result ≡ has set junction }
{
    set & only(junction) != 0
}

// The set with what a step adds: its end, where the set has its start. Both are words with one junction.
fn widened(set: u64, start: u64, end: u64) -> u64
    ensures { result ≡ widened set start end }
{
    if set & start == 0 { set } else { set | end }
}

impl Link {
    // The greatest flow that the pipe lets through.
    fn room(&self) -> u32
        ensures { result ≡ room self.now.valve self.now.limit }
    {
        match self.valve {
            Valve::Open => self.limit,
            Valve::Closed => 0,
        }
    }

    // The set with what the residual steps of the pipe add, taken along their way or against it.
    fn spread(&self, flow: u32, set: u64, direction: Direction) -> u64
        ensures { result ≡ spread self.now flow set direction }
    {
        let (from, to) = (only(self.from), only(self.to));
        let (start, end) = match direction {
            Direction::Along => (from, to),
            Direction::Against => (to, from),
        };
        let open = self.valve == Valve::Open;
        let set = if open && flow < self.limit {
            widened(set, start, end)
        } else {
            set
        };
        if open && flow > 0 {
            widened(set, end, start)
        } else {
            set
        }
    }

    // Whether the pipe is open, from the near side, to outside the far side.
    pub fn governs(&self, report: &Report) -> bool
        ensures { result ≡ governs self.now report.now }
    {
        self.valve == Valve::Open && has(report.near, self.from) && !has(report.far, self.to)
    }
}

impl Plan {
    // Whether each flow is within its limit, and each junction's outflow less its inflow is due:
    // the value at the pump, its opposite at the outlet, and 0 elsewhere.
    pub fn conserves(&self, flows: &[u32], value: u32) -> bool {
        if self.pump >= 64 || self.outlet >= 64 || self.links.len() != flows.len() {
            return false;
        }
        // What flows out of each junction less what flows in, by the junction's number. An array and no map: every
        // junction from 0 on has a net, and an array needs no memory that could lack.
        let mut nets = [0i64; 64];
        for (link, flow) in self.links.iter().zip(flows) {
            if *flow > link.room() || link.from >= 64 || link.to >= 64 {
                return false;
            }
            let flow = i64::from(*flow);
            nets[link.from] = nets[link.from].wrapping_add(flow);
            nets[link.to] = nets[link.to].wrapping_sub(flow);
        }
        let value = i64::from(value);
        nets[self.pump] = nets[self.pump].wrapping_sub(value);
        nets[self.outlet] = nets[self.outlet].wrapping_add(value);
        nets == [0i64; 64]
    }

    // The junctions that residual steps lead to from a junction or, against their way, those from which they lead to it.
    fn reach(&self, flows: &[u32], junction: usize, direction: Direction) -> u64 {
        let mut set = only(junction);
        // Each round adds the ends of all steps from the set, so 63 find all of 64 junctions; a fixed number of rounds
        // needs no proof that a round adds something.
        for _ in 0..64usize {
            for (link, flow) in self.links.iter().zip(flows) {
                set = link.spread(*flow, set, direction);
            }
        }
        set
    }

    // Whether the near side is what the pump reaches, which the outlet is not, and the far side what does not reach the
    // outlet.
    pub fn shows(&self, flows: &[u32], report: &Report) -> bool {
        let near = self.reach(flows, self.pump, Direction::Along);
        let reaching = self.reach(flows, self.outlet, Direction::Against);
        let all = only(self.junctions).wrapping_sub(1);
        near == report.near && !has(near, self.outlet) && all & !reaching == report.far
    }
}
