ghost use Rattle.std.specs.Option.{MatchOption};
ghost use Rattle.network.specs.Pipes.{same_row};
ghost use Rattle.network.specs.Rows.{SoundFlow};

use crate::pipe::Pipe;
use crate::row::Row;
use crate::valve::Valve;

impl Pipe {
    // The pipe record of a row, if the row keeps the rules. There is one way to fail, so an Option says what TryFrom
    // would need an error type for.
    pub fn from_row(row: &Row) -> Option<Pipe>
        ensures { MatchOption result (SoundFlow row.now → ⊥) (λ p. same_row p row.now) }
    {
        let Row {
            from,
            to,
            limit,
            flow,
            valve,
        } = *row;
        let room = match valve {
            Valve::Open => limit,
            Valve::Closed => 0,
        };
        if flow <= room {
            Some(Pipe {
                from,
                to,
                limit,
                flow,
                valve,
            })
        } else {
            None
        }
    }
}
