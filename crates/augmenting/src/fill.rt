ghost use Rattle.std.specs.Prelude.{◌≡◌, ◌<◌, ◌≤◌, List, Some, None};
ghost use Rattle.network.specs.declared.step.Step.{Step};
ghost use Rattle.network.specs.Flows.{Flow, outflow, inflow};
ghost use Rattle.network.specs.Paths.{Path};
ghost use Rattle.network.specs.Pipes.{network_of, flow_of};
ghost use Rattle.interface.specs.Augmentations.{Augments, Fills};

use crate::augmenter::Augmenter;
use crate::push::{least_weight, push};
use network::table::MOST_LIMIT;
use paths::metric::PathMetric;
use paths::search::best_path;

impl<'t, 'w, M: PathMetric> Augmenter<'t, 'w, M> {
    // Adds along a best path from `source` to `goal` the smallest weight on it, or `most` if that is less.
    // The answer is the amount, or None where there is no path.
    pub fn augment(&mut self, source: usize, goal: usize, most: u32) -> Option<u32>
        requires source { source < self.old.table.now.junctions }
        requires goal { goal < self.old.table.now.junctions }
        requires some { 0 < most }
        ensures same { network_of self.new.table.now ≡ network_of self.old.table.now }
        ensures answer { elim result [
          | None ↦ (flow_of self.new.table.now ≡ flow_of self.old.table.now) × ((ss : List Step) → Path (network_of self.old.table.now) (flow_of self.old.table.now) source ss goal → ⊥)
          | Some c ↦ Augments (network_of self.old.table.now) M.good M.start M.extended source goal most (flow_of self.old.table.now) c (flow_of self.new.table.now)
        ] }
        ensures same_table { self.new.table.ghost_name ≡ self.old.table.ghost_name }
        ensures same_labels { self.new.labels.ghost_name ≡ self.old.labels.ghost_name }
    {
        let table = &mut *self.table;
        let labels = &mut *self.labels;
        best_path(table, source, goal, labels)?;
        let amount = least_weight(table, labels, goal, most);
        push(table, labels, goal, amount);
        Some(amount)
    }

    // Augments from pump to outlet until there is no path, and answers how often.
    // No weight exceeds the greatest limit, so that is no bound on an amount.
    pub fn fill(&mut self) -> u32
        requires flow { Flow (network_of self.old.table.now) (flow_of self.old.table.now) }
        requires forth { inflow (network_of self.old.table.now) (flow_of self.old.table.now) self.old.table.now.pump ≤ outflow (network_of self.old.table.now) (flow_of self.old.table.now) self.old.table.now.pump }
        ensures same { network_of self.new.table.now ≡ network_of self.old.table.now }
        ensures flow { Flow (network_of self.old.table.now) (flow_of self.new.table.now) }
        ensures done { (ss : List Step) → Path (network_of self.old.table.now) (flow_of self.new.table.now) self.old.table.now.pump ss self.old.table.now.outlet → ⊥ }
        ensures count { Fills (network_of self.old.table.now) M.good M.start M.extended (flow_of self.old.table.now) result (flow_of self.new.table.now) }
        ensures few { result ≤ 30720000 }
        ensures same_table { self.new.table.ghost_name ≡ self.old.table.ghost_name }
        ensures same_labels { self.new.labels.ghost_name ≡ self.old.labels.ghost_name }
    {
        let pump = self.table.pump;
        let outlet = self.table.outlet;
        let mut count = 0;
        while let Some(_) = self.augment(pump, outlet, MOST_LIMIT) {
            count += 1;
        }
        count
    }
}
