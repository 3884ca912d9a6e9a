ghost use Rattle.std.specs.Prelude.{◌≡◌};
ghost use Rattle.network.specs.Flows.{Greatest};
ghost use Rattle.network.specs.Pipes.{network_of, flow_of};
ghost use Rattle.network.specs.Reports.{report_of};

use network::report::Report;
use network::table::Table;

// A network with a greatest flow on it, and its report.
#[derive(Drop)]
pub struct Settled {
    pub table: Table,
    pub report: Report,
    ghost greatest: { Greatest (network_of table) (flow_of table) },
    ghost reported: { report ≡ report_of (network_of table) },
}
