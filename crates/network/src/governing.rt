ghost use Rattle.std.specs.Prelude.{◌≡◌, Decides};
ghost use Rattle.network.specs.Governing.{governing, Raises};
ghost use Rattle.network.specs.Pipes.{network_of};
ghost use Rattle.network.specs.Reports.{report_of};

use crate::report::Report;
use crate::sets::holds;
use crate::table::Table;
use crate::valve::Valve;

// Whether pipe k is governing by a report. By the network's own report it is so exactly where one litre more on its
// limit raises the greatest value.
pub fn governs(table: &Table, report: &Report, k: usize) -> bool
    ensures test { result ≡ governing (network_of table.now) report.now k }
    ensures raises { report.now ≡ report_of (network_of table.now) → Decides result (Raises (network_of table.now) k) }
{
    match table.pipe(k) {
        None => false,
        Some(pipe) => match pipe.valve {
            Valve::Open => holds(report.near, pipe.from) && !holds(report.far, pipe.to),
            Valve::Closed => false,
        },
    }
}
