ghost use Rattle.std.specs.Prelude.{◌≡◌, suc, ◌<◌, ◌≤◌, length, drop};
ghost use Rattle.network.specs.Pipes.{network_of, flow_of};
ghost use Rattle.paths.specs.Metrics.{InRange};
ghost use Rattle.paths.specs.BestPaths.{Answer};
ghost use Rattle.paths.specs.Searches.{length_at, steps_at, Kept, Labelled, Relaxed, Improves, Follows, Done, Blank, Best, Within};

use crate::label::Label;
use crate::metric::PathMetric;
use crate::residual::{head_of, tail_of, weight_of};
use network::step::{Direction, Step};
use network::table::Table;
use network::valve::Valve;

// Labels `to` by a step from `from`, if that is strictly better than the label it has, and says whether it was.
// A path that has every junction is not extended: the step would lead back onto it, where no label can improve.
// So every length that is compared has at most 63 extensions, which is as far as a metric promises anything.
fn improve<M: PathMetric>(
    labels: &mut [Label<M>],
    from: usize,
    to: usize,
    amount: u32,
    step: Step,
) -> bool
    requires inside { from < length labels.old }
    requires onto { to < length labels.old }
    requires light { amount ≤ 60000 }
    requires known { suc (steps_at labels.old from) < length labels.old → InRange M.start M.none M.extended 62 (length_at M.means M.none labels.old from) }
    requires told { InRange M.start M.none M.extended 63 (length_at M.means M.none labels.old to) }
    ensures { Improves M.means M.good M.none M.extended labels.old from to amount step labels.new result }
{
    let label = labels[from];
    if label.steps >= labels.len() - 1 {
        return false;
    }
    let length = label.length.extend(amount);
    if labels[to].length.at_least(&length) {
        false
    } else {
        labels[to] = Label {
            length,
            steps: label.steps + 1,
            via: Some(step),
        };
        true
    }
}

// Labels the source with the path of no pipe, and no other junction.
fn reset<M: PathMetric>(labels: &mut [Label<M>], source: usize)
    requires { source < length labels.old }
    ensures { Blank M.means M.start M.none source labels.new }
{
    let unreached = Label::unreached();
    // `fill` would ask that no clone of M fails, which `Copy` does not say.
    for label in labels.iter_mut() {
        *label = unreached;
    }
    labels[source] = Label {
        length: M::no_pipe(),
        ..unreached
    };
}

// A search over a table for the best paths from one of its junctions.
// The labels stay a parameter. With them inside, each method would owe clauses more, that they are still the caller's
// and that table and source are as they were; and what is kept of them tells of paths, so it has many proofs, where the
// fact of a field may have one. What a method leaves behind is one named fact, `Follows`, of the labels before and after.
#[derive(Clone, Copy)]
struct Search<'a> {
    table: &'a Table,
    source: usize,
    ghost within: { source < table.now.junctions },
}

impl Search<'_> {
    // Relaxes one step. An absent step improves nothing, nor does one into the source.
    fn relax<M: PathMetric>(&self, step: Step, labels: &mut [Label<M>]) -> bool
        requires inside { step.pipe < self.now.table.now.count }
        requires labelled { Labelled (network_of self.now.table.now) (flow_of self.now.table.now) self.now.source M.means M.good M.start M.none M.extended labels.old }
        ensures follows { Follows (network_of self.now.table.now) (flow_of self.now.table.now) self.now.source M.means M.good M.start M.none M.extended labels.old labels.new result }
        ensures relaxed { Relaxed (network_of self.now.table.now) (flow_of self.now.table.now) M.means M.good M.none M.extended labels.old labels.new step }
    {
        let row = self.table.rows[step.pipe];
        let to = head_of(&row, step.direction);
        let amount = weight_of(&row, step.direction);
        if amount == 0 || to == self.source {
            return false;
        }
        improve(labels, tail_of(&row, step.direction), to, amount, step)
    }

    // Relaxes both steps of a pipe, if it is open.
    fn relax_pipe<M: PathMetric>(&self, pipe: usize, labels: &mut [Label<M>]) -> bool
        requires inside { pipe < self.now.table.now.count }
        requires labelled { Labelled (network_of self.now.table.now) (flow_of self.now.table.now) self.now.source M.means M.good M.start M.none M.extended labels.old }
        ensures follows { Follows (network_of self.now.table.now) (flow_of self.now.table.now) self.now.source M.means M.good M.start M.none M.extended labels.old labels.new result }
        ensures done { Done (network_of self.now.table.now) (flow_of self.now.table.now) M.means M.good M.none M.extended labels.old labels.new (λ j. j ≡ pipe) }
    {
        match self.table.rows[pipe].valve {
            Valve::Closed => false,
            Valve::Open => {
                let along = self.relax(
                    Step {
                        pipe,
                        direction: Direction::Along,
                    },
                    labels,
                );
                let against = self.relax(
                    Step {
                        pipe,
                        direction: Direction::Against,
                    },
                    labels,
                );
                along | against
            }
        }
    }

    // One round: relaxes every step, and says whether a label changed.
    fn sweep<M: PathMetric>(&self, labels: &mut [Label<M>]) -> bool
        requires labelled { Labelled (network_of self.now.table.now) (flow_of self.now.table.now) self.now.source M.means M.good M.start M.none M.extended labels.old }
        ensures follows { Follows (network_of self.now.table.now) (flow_of self.now.table.now) self.now.source M.means M.good M.start M.none M.extended labels.old labels.new result }
        ensures done { Done (network_of self.now.table.now) (flow_of self.now.table.now) M.means M.good M.none M.extended labels.old labels.new (λ j. j < self.now.table.now.count) }
    {
        let mut changed = false;
        // A step is a pipe by its number: over the rows, the methods below would have to be told that a row is the one
        // of that number.
        for pipe in 0..self.table.count {
            let here = self.relax_pipe(pipe, labels);
            changed |= here;
        }
        changed
    }

    // Rounds until one changes no label; a path has fewer steps than there are junctions, so that many are enough.
    fn settle<M: PathMetric>(&self, labels: &mut [Label<M>])
        requires labelled { Labelled (network_of self.now.table.now) (flow_of self.now.table.now) self.now.source M.means M.good M.start M.none M.extended labels.old }
        requires begun { Within (network_of self.now.table.now) (flow_of self.now.table.now) self.now.source M.means M.good M.start M.none M.extended 0 labels.old }
        ensures kept { Kept (network_of self.now.table.now) (flow_of self.now.table.now) self.now.source M.means M.good M.start M.none M.extended labels.new }
        ensures best { Best (network_of self.now.table.now) (flow_of self.now.table.now) self.now.source M.means M.good M.start M.none M.extended labels.new }
    {
        // The number only bounds the rounds; nothing is indexed by it.
        for _round in 1..self.table.junctions {
            if !self.sweep(labels) {
                return;
            }
        }
    }

    // The answer for one goal, over as many labels as there are junctions.
    fn run<M: PathMetric>(&self, goal: usize, labels: &mut [Label<M>]) -> Option<Label<M>>
        requires wide { length labels.old ≡ self.now.table.now.junctions }
        requires goal { goal < self.now.table.now.junctions }
        ensures { Answer (network_of self.now.table.now) (flow_of self.now.table.now) self.now.source goal M.means M.good M.start M.extended labels.new result }
    {
        reset(labels, self.source);
        self.settle(labels);
        let label = labels[goal];
        if M::no_way().at_least(&label.length) {
            None
        } else {
            Some(label)
        }
    }
}

// The best path from `source` to `goal`: its label, from which `via` leads back to `source`; or None where there is no path.
pub fn best_path<M: PathMetric>(
    table: &Table,
    source: usize,
    goal: usize,
    labels: &mut [Label<M>],
) -> Option<Label<M>>
    requires source { source < table.now.junctions }
    requires goal { goal < table.now.junctions }
    requires places { table.now.junctions ≤ length labels.old }
    ensures answer { Answer (network_of table.now) (flow_of table.now) source goal M.means M.good M.start M.extended labels.new result }
    ensures beyond { drop table.now.junctions labels.new ≡ drop table.now.junctions labels.old }
{
    Search { table, source }.run(goal, &mut labels[0..table.junctions])
}
