ghost use Rattle.std.specs.Prelude.{◌≡◌, ◌<◌, ◌≤◌, take, MatchOption};
ghost use Rattle.network.specs.Pipes.{record_pipe, network_of, flow_of};
ghost use Rattle.network.specs.Residual.{pipe, carried};

use crate::pipe::Pipe;
use crate::row::Row;
use crate::table::Table;

impl Table {
    // The rows of the pipes, without those that are unused.
    pub fn pipe_rows(&self) -> &[Row]
        ensures { result.now ≡ take self.now.count self.now.rows }
    {
        &self.rows[..self.count]
    }

    // The record of pipe k, made from its row after a check; None where there is no such pipe.
    pub fn pipe(&self, k: usize) -> Option<Pipe>
        ensures { MatchOption result (self.now.count ≤ k) (λ p. (k < self.now.count)
            × (record_pipe p ≡ pipe (network_of self.now) k)
            × (p.flow ≡ carried (flow_of self.now) k)) }
    {
        if k >= self.count {
            return None;
        }
        Pipe::from_row(&self.rows[k])
    }
}
