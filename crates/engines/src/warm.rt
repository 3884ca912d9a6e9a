ghost use Rattle.interface.specs.Works.{warm};

use crate::keeper::FlowKeeper;
use crate::keeping::Keeping;
use crate::settle::to_mend;
use crate::settled::Settled;
use augmenting::rows::{change_row, set_valves};
use network::pipe::Pipe;
use network::valve::Valve;
use paths::label::Label;
use paths::metric::PathMetric;

// The flow stays, and is repaired after each change.
pub struct Warm;

// An engine that keeps its flow and repairs it after each change, by best paths under the metric M.
pub type WarmEngine<M> = FlowKeeper<M, Warm>;

// What two of these calls share is two or three lines, and their contract would be longer: what the row may become, and
// what flow is kept.
impl Keeping for Warm {
    ghost manner = { warm };

    fn open<M: PathMetric>(
        settled: &mut Settled,
        pipe: usize,
        old: Pipe,
        work: &mut [Label<M>],
    ) -> (i64, u32) {
        let mut table = settled.table;
        change_row(&mut table, pipe, old.limit, Valve::Open, old.flow);
        settled.refill(&mut table, work)
    }

    fn close<M: PathMetric>(
        settled: &mut Settled,
        pipe: usize,
        old: Pipe,
        work: &mut [Label<M>],
    ) -> (i64, u32) {
        let mut table = settled.table;
        let mut mending = to_mend(&mut table, work);
        let count = mending.lower(pipe, old.limit, Valve::Closed, 0);
        (settled.replace(&table), count)
    }

    fn limit<M: PathMetric>(
        settled: &mut Settled,
        pipe: usize,
        old: Pipe,
        limit: u32,
        work: &mut [Label<M>],
    ) -> (i64, u32) {
        let mut table = settled.table;
        if limit < old.flow {
            let mut mending = to_mend(&mut table, work);
            let count = mending.lower(pipe, limit, old.valve, limit);
            (settled.replace(&table), count)
        } else {
            change_row(&mut table, pipe, limit, old.valve, old.flow);
            settled.refill(&mut table, work)
        }
    }

    fn pattern<M: PathMetric>(
        settled: &mut Settled,
        letters: &[u8],
        work: &mut [Label<M>],
    ) -> (i64, u32) {
        let mut table = settled.table;
        let closing = to_mend(&mut table, work).close_marked(letters);
        set_valves(&mut table, letters);
        let (change, filling) = settled.refill(&mut table, work);
        (change, closing + filling)
    }
}
