ghost use Rattle.std.specs.Prelude.{◌≤◌, length};
ghost use Rattle.network.specs.Flows.{Greatest};
ghost use Rattle.network.specs.Pipes.{network_of, flow_of};

use network::table::Table;
use paths::label::Label;

// A network whose flow is greatest, while it is changed and mended.
// It lends its fields to an Augmenter, and holds none: of what is lent through two structs nothing is known once it is back.
#[derive(Drop)]
pub struct GreatestFlow<'t, 'w, M> {
    pub table: &'t mut Table,
    pub labels: &'w mut [Label<M>],
    ghost places: { table.now.junctions ≤ length labels.now },
    ghost greatest: { Greatest (network_of table.now) (flow_of table.now) },
}
