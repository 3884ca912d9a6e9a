ghost use Rattle.std.specs.Prelude.{◌≡◌, ℕ, ◌+◌, ◌<◌, ◌≤◌};
ghost use Rattle.network.specs.Pipes.{network_of, flow_of};
ghost use Rattle.network.specs.Repair.{Torn};
ghost use Rattle.interface.specs.Augmentations.{NoPath, Leads, Mends};
ghost use Rattle.augmenting.specs.Legs.{GivesBack};

use crate::augmenter::Augmenter;
use crate::led::Led;
use paths::metric::PathMetric;

impl<'t, 'w, M: PathMetric> Augmenter<'t, 'w, M> {
    // Leads an amount from `source` to `goal` along best paths, until all is led or there is no path.
    pub fn lead(&mut self, source: usize, goal: usize, amount: u32) -> Led
        requires source { source < self.old.table.now.junctions }
        requires goal { goal < self.old.table.now.junctions }
        ensures same { network_of self.new.table.now ≡ network_of self.old.table.now }
        ensures leads { Leads (network_of self.old.table.now) M.good M.start M.extended source goal amount (flow_of self.old.table.now) result.count result.rest (flow_of self.new.table.now) }
        ensures few { result.count + result.rest ≤ amount }
        ensures blocked { 0 < result.rest → NoPath (network_of self.old.table.now) (flow_of self.new.table.now) source goal }
        ensures same_table { self.new.table.ghost_name ≡ self.old.table.ghost_name }
        ensures same_labels { self.new.labels.ghost_name ≡ self.old.labels.ghost_name }
    {
        let mut rest = amount;
        let mut count = 0;
        while rest > 0 {
            let Some(led) = self.augment(source, goal, rest) else {
                return Led { rest, count };
            };
            rest -= led;
            count += 1;
        }
        Led { rest, count }
    }

    // Leads an amount back from `source` to `goal`, if these are two junctions, and answers the number of augmentations.
    fn give_back(&mut self, source: usize, goal: usize, amount: u32) -> u32
        requires source { source < self.old.table.now.junctions }
        requires goal { goal < self.old.table.now.junctions }
        ensures same { network_of self.new.table.now ≡ network_of self.old.table.now }
        ensures few { result ≤ amount }
        ensures gives { GivesBack (network_of self.old.table.now) M.good M.start M.extended source goal amount (flow_of self.old.table.now) result (flow_of self.new.table.now) }
        ensures same_table { self.new.table.ghost_name ≡ self.old.table.ghost_name }
        ensures same_labels { self.new.labels.ghost_name ≡ self.old.labels.ghost_name }
    {
        if source == goal {
            return 0;
        }
        self.lead(source, goal, amount).count
    }

    // Mends a flow that lost an amount on the way between two junctions: leads it by other ways,
    // then what remains back to the pump and from the outlet. The answer is the number of augmentations.
    // Callers repeat the bound until the counts are added: a bounded type would be unwrapped there at once.
    pub fn mend(&mut self, from: usize, to: usize, lost: u32) -> u32
        requires from { from < self.old.table.now.junctions }
        requires to { to < self.old.table.now.junctions }
        requires few { lost ≤ 60000 }
        requires torn { (v : ℕ) × Torn (network_of self.old.table.now) (flow_of self.old.table.now) from to v v lost lost }
        ensures same { network_of self.new.table.now ≡ network_of self.old.table.now }
        ensures mends { Mends (network_of self.old.table.now) M.good M.start M.extended from to lost (flow_of self.old.table.now) result (flow_of self.new.table.now) }
        ensures few { result ≤ 180000 }
        ensures same_table { self.new.table.ghost_name ≡ self.old.table.ghost_name }
        ensures same_labels { self.new.labels.ghost_name ≡ self.old.labels.ghost_name }
    {
        let pump = self.table.pump;
        let outlet = self.table.outlet;
        let round = self.lead(from, to, lost);
        let back = self.give_back(from, pump, round.rest);
        let forth = self.give_back(outlet, to, round.rest);
        round.count + back + forth
    }
}
