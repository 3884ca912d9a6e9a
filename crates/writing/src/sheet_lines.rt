ghost use Rattle.std.specs.Prelude.{◌≡◌, length};
ghost use Rattle.network.specs.Pipes.{pipe_of, network_of};
ghost use Rattle.formats.specs.Spaces.{Put};
ghost use Rattle.formats.specs.Written.{valve_letter, header_line, pipe_line, sheet_of};

use crate::fields::put_number;
use formats::fields::{BLANK, FIELD_COLUMNS, KIND_COLUMNS, SHEET_COLUMNS};
use formats::refusal::Refusal;
use network::row::Row;
use network::table::{MOST_PIPES, Table};
use network::valve::Valve;

// The bytes of a line, with its line feed.
pub const LINE_BYTES: usize = SHEET_COLUMNS + 1;

// The bytes of the longest sheet.
pub const MOST_SHEET: usize = LINE_BYTES * (1 + MOST_PIPES);

// O for an open valve, C for a closed one. The letter is the sheet's, and the crate of valves knows no sheets, so it is
// no `From` there.
fn letter_of_valve(valve: Valve) -> u8
    ensures { result ≡ valve_letter valve }
{
    match valve {
        Valve::Open => b'O',
        Valve::Closed => b'C',
    }
}

// These functions fill a slice that is one line long with that line. Each splits its own columns off and names them, as for
// the lines of a page: a list of columns to go through would have to say the same, and where each begins.

// The NETW line.
#[tactic(auto, using(formats::proofs::Lengths::table_length), unfolding(formats::specs::Written::header_columns))]
fn fill_header(line: &mut [u8], table: &Table)
    requires { length line.old ≡ 25 }
    ensures { line.new ≡ header_line (network_of table.now) }
{
    let (kind, rest) = line.split_at_mut(KIND_COLUMNS);
    let (junctions, rest) = rest.split_at_mut(FIELD_COLUMNS);
    let (pipes, rest) = rest.split_at_mut(FIELD_COLUMNS);
    let (pump, rest) = rest.split_at_mut(FIELD_COLUMNS);
    let (outlet, end) = rest.split_at_mut(FIELD_COLUMNS);
    kind.copy_from_slice(b"NETW");
    put_number(junctions, table.junctions as u64);
    put_number(pipes, table.count as u64);
    put_number(pump, table.pump as u64);
    put_number(outlet, table.outlet as u64);
    end.copy_from_slice(b"\n");
}

// A PIPE line.
#[tactic(auto, unfolding(formats::specs::Written::pipe_columns))]
fn fill_pipe(line: &mut [u8], row: &Row)
    requires { length line.old ≡ 25 }
    ensures { line.new ≡ pipe_line (pipe_of row.now) }
{
    let (kind, rest) = line.split_at_mut(KIND_COLUMNS);
    let (from, rest) = rest.split_at_mut(FIELD_COLUMNS);
    let (to, rest) = rest.split_at_mut(FIELD_COLUMNS);
    let (limit, rest) = rest.split_at_mut(FIELD_COLUMNS);
    let (valve, end) = rest.split_at_mut(FIELD_COLUMNS);
    kind.copy_from_slice(b"PIPE");
    put_number(from, row.from as u64);
    put_number(to, row.to as u64);
    put_number(limit, row.limit as u64);
    valve.copy_from_slice(&[BLANK, BLANK, BLANK, BLANK, letter_of_valve(row.valve)]);
    end.copy_from_slice(b"\n");
}

// The sheet of a table's network, at the front of the space. The answer is its length; where it does not fit, the space
// stays as it was.
pub fn try_put_sheet(space: &mut [u8], table: &Table) -> Result<usize, Refusal>
    ensures { Put 0 (sheet_of (network_of table.now)) space.old result space.new }
{
    let length = LINE_BYTES * (1 + table.count);
    if space.len() < length {
        return Err(Refusal::LittleSpace);
    }
    fill_header(&mut space[..LINE_BYTES], table);
    // Each line is taken at its place: `chunks_exact_mut`, zipped with the rows, was tried, and left nothing known of
    // the space.
    let rows = table.pipe_rows();
    for (k, row) in rows.iter().enumerate() {
        let at = LINE_BYTES * (1 + k);
        fill_pipe(&mut space[at..at + LINE_BYTES], row);
    }
    Ok(length)
}
