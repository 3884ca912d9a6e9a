ghost use Rattle.std.specs.Prelude.{◌≡◌, ◌<◌, ◌≤◌, min, length};
ghost use Rattle.std.specs.List.{AllByRecursion};
ghost use Rattle.network.specs.Pipes.{network_of, flow_of, pipe_of};
ghost use Rattle.network.specs.Pushing.{moved, push, pushed};
ghost use Rattle.network.specs.Residual.{weight, weight_by};
ghost use Rattle.network.specs.Rows.{Limited, SoundFlow};
ghost use Rattle.network.specs.Valves.{room};
ghost use Rattle.paths.specs.BestPaths.{via_at};
ghost use Rattle.interface.specs.Augmentations.{least_weight_of};
ghost use Rattle.augmenting.specs.Chains.{spelled, Takes, Once};

use crate::rows::change_row;
use crate::walk::Walk;
use network::row::Row;
use network::step::{Direction, Step};
use network::table::Table;
use paths::label::Label;
use paths::metric::PathMetric;
use paths::residual::weight_of;

// The smallest weight on the path that the labels spell back from `goal`, or `most` if that is less.
pub fn least_weight<M: PathMetric>(
    table: &Table,
    labels: &[Label<M>],
    goal: usize,
    most: u32,
) -> u32
    requires goal { goal < table.now.junctions }
    requires places { table.now.junctions ≤ length labels.now }
    requires inside { AllByRecursion (λ s. s.pipe < table.now.count) (spelled (network_of table.now) (via_at labels.now) table.now.junctions goal) }
    ensures { result ≡ least_weight_of (network_of table.now) (flow_of table.now) most (spelled (network_of table.now) (via_at labels.now) table.now.junctions goal) }
{
    let mut walk = Walk::back_from(goal, labels, table.junctions);
    let mut least = most;
    while let Some(step) = walk.step_back(table) {
        let row = &table.rows[step.pipe];
        least = least.min(weight_of(row, step.direction));
    }
    least
}

// What a pipe carries after an amount was added along a step: more on it, or less against it.
fn moved(row: &Row, direction: Direction, amount: u32) -> u32
    requires limited { Limited row.now }
    requires sound { SoundFlow row.now }
    requires takes { amount ≤ weight_by direction (pipe_of row.now) row.now.flow }
    ensures is { result ≡ moved direction row.now.flow amount }
    ensures within { result ≤ room row.now.valve row.now.limit }
{
    match direction {
        Direction::Along => row.flow + amount,
        Direction::Against => row.flow - amount,
    }
}

// Adds an amount along a step.
fn push_step(table: &mut Table, step: Step, amount: u32)
    requires inside { step.pipe < table.old.count }
    requires takes { amount ≤ weight (network_of table.old) (flow_of table.old) step }
    ensures same { network_of table.new ≡ network_of table.old }
    ensures count { table.new.count ≡ table.old.count }
    ensures flow { flow_of table.new ≡ push (flow_of table.old) amount step }
{
    let row = table.rows[step.pipe];
    let flow = moved(&row, step.direction, amount);
    change_row(table, step.pipe, row.limit, row.valve, flow);
}

// Adds an amount along the path that the labels spell back from `goal`.
pub fn push<M: PathMetric>(table: &mut Table, labels: &[Label<M>], goal: usize, amount: u32)
    requires goal { goal < table.old.junctions }
    requires places { table.old.junctions ≤ length labels.now }
    requires takes { AllByRecursion (Takes (network_of table.old) (flow_of table.old) amount) (spelled (network_of table.old) (via_at labels.now) table.old.junctions goal) }
    requires once { Once (spelled (network_of table.old) (via_at labels.now) table.old.junctions goal) }
    ensures same { network_of table.new ≡ network_of table.old }
    ensures count { table.new.count ≡ table.old.count }
    ensures flow { flow_of table.new ≡ pushed (flow_of table.old) amount (spelled (network_of table.old) (via_at labels.now) table.old.junctions goal) }
{
    let mut walk = Walk::back_from(goal, labels, table.junctions);
    while let Some(step) = walk.step_back(table) {
        push_step(table, step, amount);
    }
}
