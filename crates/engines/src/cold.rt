ghost use Rattle.interface.specs.Works.{cold};

use crate::keeper::FlowKeeper;
use crate::keeping::Keeping;
use crate::settle::{with_pattern, with_row};
use crate::settled::Settled;
use network::pipe::Pipe;
use network::valve::Valve;
use paths::label::Label;
use paths::metric::PathMetric;

// Each flow is worked out from dry pipes.
pub struct Cold;

// An engine that works out each state from dry pipes, by best paths under the metric M.
pub type ColdEngine<M> = FlowKeeper<M, Cold>;

// Two lines for each change: one function for them all would say in its contract what `with_row` and `restart` say already.
impl Keeping for Cold {
    ghost manner = { cold };

    fn open<M: PathMetric>(
        settled: &mut Settled,
        pipe: usize,
        old: Pipe,
        work: &mut [Label<M>],
    ) -> (i64, u32) {
        let mut table = with_row(&settled.table, pipe, old.limit, Valve::Open);
        settled.restart(&mut table, work)
    }

    fn close<M: PathMetric>(
        settled: &mut Settled,
        pipe: usize,
        old: Pipe,
        work: &mut [Label<M>],
    ) -> (i64, u32) {
        let mut table = with_row(&settled.table, pipe, old.limit, Valve::Closed);
        settled.restart(&mut table, work)
    }

    fn limit<M: PathMetric>(
        settled: &mut Settled,
        pipe: usize,
        old: Pipe,
        limit: u32,
        work: &mut [Label<M>],
    ) -> (i64, u32) {
        let mut table = with_row(&settled.table, pipe, limit, old.valve);
        settled.restart(&mut table, work)
    }

    fn pattern<M: PathMetric>(
        settled: &mut Settled,
        letters: &[u8],
        work: &mut [Label<M>],
    ) -> (i64, u32) {
        let mut table = with_pattern(&settled.table, letters);
        settled.restart(&mut table, work)
    }
}
