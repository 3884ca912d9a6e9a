ghost use Rattle.std.specs.Prelude.{◌≡◌, ◌-◌, ◌^◌, ◌<◌, List};
ghost use Rattle.network.specs.Flows.{Flow, outflow, inflow};
ghost use Rattle.network.specs.Paths.{Path};
ghost use Rattle.network.specs.Pipes.{pipe_of, network_of, flow_of};
ghost use Rattle.network.specs.Reaches.{Reached, Apart};
ghost use Rattle.network.specs.Reports.{report_of};
ghost use Rattle.augmenting.specs.Closures.{Closure, Spread, Crossed, near_by, far_by};
ghost use Rattle.augmenting.specs.Surveys.{passing};

use network::report::Report;
use network::row::Row;
use network::sets::holds;
use network::step::{Direction, Step};
use network::table::Table;
use paths::residual::{head_of, tail_of, weight_of};

// What the pipes that begin at a junction carry (Along), or those that end there (Against).
fn passing_at(rows: &[Row], junction: usize, sense: Direction) -> u32
    requires { passing sense rows.now junction < 2 ^ 32 }
    ensures { result ≡ passing sense rows.now junction }
{
    rows.iter()
        .filter(|row| tail_of(row, sense) == junction)
        .map(|row| row.flow)
        .sum()
}

// The value of the flow: what leaves the pump less what comes back to it.
pub fn value(table: &Table) -> u32
    ensures { result ≡ outflow (network_of table.now) (flow_of table.now) table.now.pump - inflow (network_of table.now) (flow_of table.now) table.now.pump }
{
    let rows = table.pipe_rows();
    let out = passing_at(rows, table.pump, Direction::Along);
    let back = passing_at(rows, table.pump, Direction::Against);
    out.saturating_sub(back)
}

// The ends of a step over this pipe: the one from which a set spreads in this sense, and the one that it spreads to.
// The sense is a value: with a closure in its place, `cross`, `round` and `reached` would each require of it what these two
// clauses say. The residual graph turns two ends round by the same two arms, which say so plainer than a function over pairs.
fn near_and_far(row: &Row, direction: Direction, sense: Direction) -> (usize, usize)
    ensures near { result.0 ≡ near_by sense direction (pipe_of row.now) }
    ensures far { result.1 ≡ far_by sense direction (pipe_of row.now) }
{
    let tail = tail_of(row, direction);
    let head = head_of(row, direction);
    match sense {
        Direction::Along => (tail, head),
        Direction::Against => (head, tail),
    }
}

// The set, with the far end of a residual step if it has the near end.
fn cross(table: &Table, step: Step, sense: Direction, seen: u64) -> u64
    requires { step.pipe < table.now.count }
    ensures spread { Spread sense (network_of table.now) (flow_of table.now) seen result }
    ensures crossed { Crossed sense (network_of table.now) (flow_of table.now) seen result step }
{
    let row = table.rows[step.pipe];
    let weight = weight_of(&row, step.direction);
    let (near, far) = near_and_far(&row, step.direction, sense);
    if weight > 0 && holds(seen, near) {
        seen | (1 << far)
    } else {
        seen
    }
}

// One round: every step is crossed. A step names its pipe by number, so the loop counts pipes: over the rows
// `cross` would have to be told that a row is the one of that number.
fn round(table: &Table, sense: Direction, seen: u64) -> u64
    ensures spread { Spread sense (network_of table.now) (flow_of table.now) seen result }
    ensures crossed { (s : Step) → Crossed sense (network_of table.now) (flow_of table.now) seen result s }
{
    let mut grown = seen;
    for pipe in 0..table.count {
        let along = Step {
            pipe,
            direction: Direction::Along,
        };
        let against = Step {
            pipe,
            direction: Direction::Against,
        };
        let half = cross(table, along, sense, grown);
        grown = cross(table, against, sense, half);
    }
    grown
}

// The junctions that `start` reaches over residual steps (Along), or that reach it (Against): rounds until one adds nothing.
pub fn reached(table: &Table, start: usize, sense: Direction) -> u64
    requires { start < table.now.junctions }
    ensures { Closure sense (network_of table.now) (flow_of table.now) start result }
{
    let mut seen = 1 << start;
    loop {
        let grown = round(table, sense, seen);
        if grown == seen {
            return seen;
        }
        seen = grown;
    }
}

// The set of all junctions.
fn all_junctions(table: &Table) -> u64
    ensures { result ≡ 2 ^ table.now.junctions - 1 }
{
    u64::MAX >> (64 - table.junctions)
}

// The report by the flow that the table keeps. It is the network's own once no path augments the flow.
pub fn report(table: &Table) -> Report
    ensures value { result.value ≡ outflow (network_of table.now) (flow_of table.now) table.now.pump - inflow (network_of table.now) (flow_of table.now) table.now.pump }
    ensures near { Reached (network_of table.now) (flow_of table.now) table.now.pump result.near }
    ensures far { Apart (network_of table.now) (flow_of table.now) table.now.outlet result.far }
    ensures whole { Flow (network_of table.now) (flow_of table.now) → ((ss : List Step) → Path (network_of table.now) (flow_of table.now) table.now.pump ss table.now.outlet → ⊥) → result ≡ report_of (network_of table.now) }
{
    let reaching = reached(table, table.outlet, Direction::Against);
    Report {
        value: value(table),
        near: reached(table, table.pump, Direction::Along),
        far: all_junctions(table) - reaching,
    }
}
