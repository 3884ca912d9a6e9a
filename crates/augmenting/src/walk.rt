ghost use Rattle.std.specs.Prelude.{◌≡◌, ◌<◌, [], ◌∷◌};
ghost use Rattle.network.specs.Pipes.{network_of};
ghost use Rattle.augmenting.specs.Walks.{Stands, left};

use network::step::Step;
use network::table::Table;
use paths::label::Label;
use paths::metric::PathMetric;
use paths::residual::tail_of;

// A walk back over the steps that labels name, from the junction that it stands at.
// It takes so many turns at most: labels may name steps in a circle.
#[derive(Drop)]
pub struct Walk<'a, M> {
    pub labels: &'a [Label<M>],
    pub at: usize,
    pub turns: usize,
}

impl<'a, M: PathMetric> Walk<'a, M> {
    // From a junction on, at most so many turns.
    pub fn back_from(at: usize, labels: &'a [Label<M>], turns: usize) -> Walk<'a, M>
        ensures labels { result.labels.now ≡ labels.now }
        ensures at { result.at ≡ at }
        ensures turns { result.turns ≡ turns }
    {
        Walk { labels, at, turns }
    }

    // Goes back over a step, and gives it. The table may carry another flow than before.
    pub fn step_back(&mut self, table: &Table) -> Option<Step>
        requires { Stands (network_of table.now) self.old }
        ensures { elim result [
          | None ↦ left (network_of table.now) self.old ≡ []
          | Some s ↦ (left (network_of table.now) self.old ≡ s ∷ left (network_of table.now) self.new)
              × Stands (network_of table.now) self.new × (self.new.turns < self.old.turns)
        ] }
    {
        if self.turns == 0 {
            return None;
        }
        let step = self.labels[self.at].via?;
        self.at = tail_of(&table.rows[step.pipe], step.direction);
        self.turns -= 1;
        Some(step)
    }
}
