ghost use Rattle.std.specs.Prelude.{◌≡◌, ◌<◌, ◌≤◌, length};
ghost use Rattle.network.specs.Changes.{with_pipe, with_limit, with_valve};
ghost use Rattle.network.specs.Flows.{Flow, Greatest, dry, outflow, inflow};
ghost use Rattle.network.specs.Network.{bare};
ghost use Rattle.network.specs.Pipes.{network_of, flow_of};
ghost use Rattle.network.specs.Residual.{pipe};
ghost use Rattle.interface.specs.Augmentations.{Fills};
ghost use Rattle.interface.specs.Verdicts.{change, patterned};

use crate::settled::Settled;
use augmenting::augmenter::Augmenter;
use augmenting::greatest_flow::GreatestFlow;
use augmenting::rows::{change_row, dry_out, set_valves};
use augmenting::survey;
use network::report::Report;
use network::row::Row;
use network::table::{MOST_PIPES, Table};
use network::valve::Valve;
use paths::label::Label;
use paths::metric::PathMetric;

// The table with its valves set by a letter for each pipe, and dry.
pub fn with_pattern(table: &Table, letters: &[u8]) -> Table
    requires { length letters.now ≡ table.now.count }
    ensures network { network_of result ≡ patterned (network_of table.now) letters.now }
    ensures dry { flow_of result ≡ dry (network_of result) }
{
    let mut set = *table;
    dry_out(&mut set);
    set_valves(&mut set, letters);
    set
}

// The table with another limit and valve on pipe k, and dry.
pub fn with_row(table: &Table, k: usize, limit: u32, valve: Valve) -> Table
    requires inside { k < table.now.count }
    requires some { 1 ≤ limit }
    requires few { limit ≤ 60000 }
    ensures network { network_of result ≡ with_pipe (network_of table.now) k (with_valve (with_limit (pipe (network_of table.now) k) limit) valve) }
    ensures dry { flow_of result ≡ dry (network_of result) }
{
    let mut changed = *table;
    dry_out(&mut changed);
    change_row(&mut changed, k, limit, valve, 0);
    changed
}

// A table whose flow is greatest, to be changed and mended with these labels.
pub fn to_mend<'t, 'w, M>(table: &'t mut Table, work: &'w mut [Label<M>]) -> GreatestFlow<'t, 'w, M>
    requires places { table.old.junctions ≤ length work.old }
    requires greatest { Greatest (network_of table.old) (flow_of table.old) }
    ensures table { result.table.now ≡ table.old }
    ensures labels { result.labels.now ≡ work.old }
    ensures same_table { result.table.ghost_name ≡ table.entry.ghost_name }
    ensures same_labels { result.labels.ghost_name ≡ work.entry.ghost_name }
{
    GreatestFlow {
        table,
        labels: work,
    }
}

impl Settled {
    // Two junctions and no pipe.
    pub fn bare() -> Settled
        ensures { network_of result.table ≡ bare }
    {
        let table = Table {
            junctions: 2,
            pump: 0,
            outlet: 1,
            rows: [Row::UNUSED; MOST_PIPES],
            count: 0,
        };
        Settled {
            table,
            report: Report {
                value: 0,
                near: 1,
                far: 1,
            },
        }
    }

    // These four take a table in, which is copied once, when its report is known. They are inlined, so that it is known for
    // another than the table that is replaced: else the copy would want `memmove`.

    // A table whose flow is greatest, with the report of its network. It asks for that flow, so it is no `From`.
    #[inline(always)]
    pub fn from_table(table: &Table) -> Settled
        requires { Greatest (network_of table.now) (flow_of table.now) }
        ensures { result.table ≡ table.now }
    {
        let report = survey::report(table);
        Settled {
            table: *table,
            report,
        }
    }

    // Takes in a table whose flow is greatest, and answers the change of the greatest value.
    #[inline(always)]
    pub fn replace(&mut self, table: &Table) -> i64
        requires { Greatest (network_of table.now) (flow_of table.now) }
        ensures same { self.new.table ≡ table.now }
        ensures change { result ≡ change (network_of self.old.table) (network_of table.now) }
    {
        let before = self.report.value;
        let settled = Settled::from_table(table);
        let change = i64::from(settled.report.value) - i64::from(before);
        *self = settled;
        change
    }

    // Augments a table from pump to outlet until there is no path, and takes it in.
    // The answer is the change of the greatest value, and the number of augmentations.
    #[inline(always)]
    pub fn refill<M: PathMetric>(&mut self, table: &mut Table, work: &mut [Label<M>]) -> (i64, u32)
        requires places { table.old.junctions ≤ length work.old }
        requires flow { Flow (network_of table.old) (flow_of table.old) }
        requires forth { inflow (network_of table.old) (flow_of table.old) table.old.pump ≤ outflow (network_of table.old) (flow_of table.old) table.old.pump }
        ensures same { network_of self.new.table ≡ network_of table.old }
        ensures change { result.0 ≡ change (network_of self.old.table) (network_of table.old) }
        ensures count { Fills (network_of table.old) M.good M.start M.extended (flow_of table.old) result.1 (flow_of self.new.table) }
        ensures few { result.1 ≤ 30720000 }
        ensures taken { table.new ≡ self.new.table }
    {
        let mut filling = Augmenter {
            table: &mut *table,
            labels: work,
        };
        let count = filling.fill();
        (self.replace(table), count)
    }

    // The same from dry pipes, which are a flow that brings nothing.
    #[inline(always)]
    pub fn restart<M: PathMetric>(&mut self, table: &mut Table, work: &mut [Label<M>]) -> (i64, u32)
        requires places { table.old.junctions ≤ length work.old }
        requires dry { flow_of table.old ≡ dry (network_of table.old) }
        ensures same { network_of self.new.table ≡ network_of table.old }
        ensures change { result.0 ≡ change (network_of self.old.table) (network_of self.new.table) }
        ensures count { Fills (network_of self.new.table) M.good M.start M.extended (dry (network_of self.new.table)) result.1 (flow_of self.new.table) }
        ensures taken { table.new ≡ self.new.table }
    {
        self.refill(table, work)
    }
}
