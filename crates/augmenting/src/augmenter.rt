ghost use Rattle.std.specs.Prelude.{◌≤◌, length};

use network::table::Table;
use paths::label::Label;

// A network with a flow that is augmented, and a label for each junction while a best path is searched for.
// What its methods ask of a junction or a pipe stays a clause of each: a number says nothing of the table that it
// belongs to, and a type with that bound would be asked in the same places to belong to this table.
// So does what they leave as it was: that is said of two tables, before and after, and no field holds it.
#[derive(Drop)]
pub struct Augmenter<'t, 'w, M> {
    pub table: &'t mut Table,
    pub labels: &'w mut [Label<M>],
    ghost places: { table.now.junctions ≤ length labels.now },
}
