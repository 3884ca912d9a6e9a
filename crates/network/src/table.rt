ghost use Rattle.std.specs.Prelude.{◌≡◌, ◌<◌, ◌≤◌, ◌≢◌, length};
ghost use Rattle.network.specs.Rows.{Each, Joined, Limited, SoundFlow};

use crate::row::Row;

// The most junctions and the most pipes that a network has.
pub const MOST_JUNCTIONS: usize = 64;

pub const MOST_PIPES: usize = 512;

// The greatest limit of a pipe, in litres a minute.
pub const MOST_LIMIT: u32 = 60_000;

// A network with a flow on it. The first `count` rows are its pipes; the firmware has no heap, so the number of rows is
// fixed.
#[derive(Clone, Copy)]
pub struct Table {
    pub junctions: usize,
    pub pump: usize,
    pub outlet: usize,
    pub rows: [Row; MOST_PIPES],
    pub count: usize,
    ghost two: { 2 ≤ junctions },
    ghost most: { junctions ≤ 64 },
    ghost pumped: { pump < junctions },
    ghost drained: { outlet < junctions },
    ghost apart: { pump ≢ outlet },
    ghost long: { length rows ≡ 512 },
    ghost held: { count ≤ 512 },
    ghost joined: { Each (Joined junctions) rows count },
    ghost limited: { Each Limited rows count },
    ghost flowing: { Each SoundFlow rows count },
}
