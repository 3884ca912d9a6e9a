ghost use Rattle.std.specs.Prelude.{◌≡◌, ℕ, ◌<◌, ◌≤◌, length, Some, slice_index, slice_set};
ghost use Rattle.network.specs.Changes.{with_pipe, with_limit, with_valve};
ghost use Rattle.network.specs.Flows.{dry};
ghost use Rattle.network.specs.Pipes.{network_of, flow_of};
ghost use Rattle.network.specs.Residual.{pipe, carried};
ghost use Rattle.network.specs.Valves.{room};
ghost use Rattle.formats.specs.declared.setting.Setting.TheVariants.{Closed};
ghost use Rattle.formats.specs.Letters.{setting_of};
ghost use Rattle.augmenting.specs.Settings.{valve_by};
ghost use Rattle.interface.specs.Verdicts.{patterned};

use formats::letters::read_setting;
use network::row::Row;
use network::table::Table;
use network::valve::Valve;

// Pipe k gets this limit and this valve, and carries this flow.
// That k is a pipe of this table is a clause here too, as of an Augmenter. A limit in range is two clauses wherever one is
// set: rows and records have plain numbers, so that a type for it would be made and taken apart at each row.
pub fn change_row(table: &mut Table, k: usize, limit: u32, valve: Valve, flow: u32)
    requires inside { k < table.old.count }
    requires some { 1 ≤ limit }
    requires few { limit ≤ 60000 }
    requires within { flow ≤ room valve limit }
    ensures network { network_of table.new ≡ with_pipe (network_of table.old) k (with_valve (with_limit (pipe (network_of table.old) k) limit) valve) }
    ensures flow { flow_of table.new ≡ slice_set (flow_of table.old) k flow }
    ensures count { table.new.count ≡ table.old.count }
{
    table.rows[k] = Row {
        limit,
        flow,
        valve,
        ..table.rows[k]
    };
}

// Every pipe carries nothing.
pub fn dry_out(table: &mut Table)
    ensures same { network_of table.new ≡ network_of table.old }
    ensures dry { flow_of table.new ≡ dry (network_of table.old) }
{
    // By the pipe's number: of a slice of the rows, or of so many taken from all, nothing would be known behind the loop,
    // and going over all rows a small network would cost as much as the largest.
    for pipe in 0..table.count {
        let row = table.rows[pipe];
        change_row(table, pipe, row.limit, row.valve, 0);
    }
}

// The valve after a letter of a pattern.
fn valve_after(valve: Valve, letter: u8) -> Valve
    ensures { result ≡ valve_by (setting_of letter) valve }
{
    match read_setting(letter) {
        Some(setting) => setting.apply(valve),
        None => valve,
    }
}

// Sets each valve by its letter. A pipe that is closed so must be dry.
pub fn set_valves(table: &mut Table, letters: &[u8])
    requires long { length letters.now ≡ table.old.count }
    requires dry { (k : ℕ) → setting_of (slice_index letters.now k) ≡ Some Closed → carried (flow_of table.old) k ≡ 0 }
    ensures network { network_of table.new ≡ patterned (network_of table.old) letters.now }
    ensures flow { flow_of table.new ≡ flow_of table.old }
{
    // By the pipe's number: rows zipped with the letters were tried, and left nothing known behind the loop.
    for (k, letter) in letters.iter().enumerate() {
        let row = table.rows[k];
        change_row(
            table,
            k,
            row.limit,
            valve_after(row.valve, *letter),
            row.flow,
        );
    }
}
