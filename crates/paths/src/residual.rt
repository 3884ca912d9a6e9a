ghost use Rattle.std.specs.Prelude.{◌≡◌};
ghost use Rattle.network.specs.Rows.{SoundFlow};
ghost use Rattle.network.specs.Pipes.{pipe_of};
ghost use Rattle.network.specs.Residual.{start_by, end_by, weight_by};

use network::row::Row;
use network::step::Direction;
use network::valve::Valve;

// Where a step over this pipe begins, and where it ends.
fn ends_of(row: &Row, direction: Direction) -> (usize, usize)
    ensures tail { result.0 ≡ start_by direction (pipe_of row.now) }
    ensures head { result.1 ≡ end_by direction (pipe_of row.now) }
{
    match direction {
        Direction::Along => (row.from, row.to),
        Direction::Against => (row.to, row.from),
    }
}

pub fn tail_of(row: &Row, direction: Direction) -> usize
    ensures { result ≡ start_by direction (pipe_of row.now) }
{
    ends_of(row, direction).0
}

pub fn head_of(row: &Row, direction: Direction) -> usize
    ensures { result ≡ end_by direction (pipe_of row.now) }
{
    ends_of(row, direction).1
}

// What a step over this pipe can still carry.
pub fn weight_of(row: &Row, direction: Direction) -> u32
    requires { SoundFlow row.now }
    ensures { result ≡ weight_by direction (pipe_of row.now) row.now.flow }
{
    match row.valve {
        Valve::Closed => 0,
        Valve::Open => match direction {
            Direction::Along => row.limit - row.flow,
            Direction::Against => row.flow,
        },
    }
}
