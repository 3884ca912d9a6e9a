ghost use Rattle.network.specs.Pipes.{network_of, flow_of};
ghost use Rattle.interface.specs.Works.{Works};
ghost use Rattle.network.proofs.TableFacts.{table_sound};
ghost use Rattle.std.proofs.Common.{rules};
ghost use Rattle.engines.specs.Kept.{kept_greatest, kept_near, kept_far};

use crate::admission::admit_load;
use crate::keeper::FlowKeeper;
use crate::keeping::Keeping;
use crate::settled::Settled;
use formats::refusal::Refusal;
use interface::engine::{Engine, FlowEngine};
use network::report::Report;
use network::table::MOST_JUNCTIONS;
use paths::label::Label;
use paths::metric::PathMetric;
use std::marker::PhantomData;

// A call that changes the network is admitted, and carried out in the engine's manner: two lines each, since a function over
// both steps would take two closures and state the contracts of both.
impl<M: PathMetric, K: Keeping> Engine for FlowKeeper<M, K> {
    const MOST_JUNCTIONS: usize = MOST_JUNCTIONS;

    type Place = Label<M>;

    ghost meaning = { λ e. network_of e.settled.table };

    ghost MOST_JUNCTIONS = { 64 };

    ghost counted = { λ a c b n. Works K.manner M.PathMetric.good M.PathMetric.start M.PathMetric.extended (network_of a.settled.table) (flow_of a.settled.table) c n (flow_of b.settled.table) };

    ghost sized = { Prim.search rules };

    ghost sound = { λ e. (table_sound e.settled.table, e.settled.table.most) };

    fn place() -> Label<M> {
        Label::unreached()
    }

    fn new() -> Self {
        FlowKeeper {
            settled: Settled::bare(),
            metric: PhantomData,
            kind: PhantomData,
        }
    }

    // Nothing is kept of the flow before, in any manner: the sheet's network begins with dry pipes.
    fn load(&mut self, text: &[u8], work: &mut [Label<M>]) -> Result<usize, Refusal> {
        let (mut table, taken) = admit_load(text, work.len())?;
        self.settled.restart(&mut table, work);
        Ok(taken)
    }

    fn open(&mut self, pipe: usize, work: &mut [Label<M>]) -> Result<(i64, u32), Refusal> {
        let old = self.settled.admit_open(pipe, work.len())?;
        Ok(K::open(&mut self.settled, pipe, old, work))
    }

    fn close(&mut self, pipe: usize, work: &mut [Label<M>]) -> Result<(i64, u32), Refusal> {
        let old = self.settled.admit_close(pipe, work.len())?;
        Ok(K::close(&mut self.settled, pipe, old, work))
    }

    fn limit(
        &mut self,
        pipe: usize,
        limit: u32,
        work: &mut [Label<M>],
    ) -> Result<(i64, u32), Refusal> {
        let old = self.settled.admit_limit(pipe, limit, work.len())?;
        Ok(K::limit(&mut self.settled, pipe, old, limit, work))
    }

    fn pattern(&mut self, letters: &[u8], work: &mut [Label<M>]) -> Result<(i64, u32), Refusal> {
        self.settled.admit_pattern(letters, work.len())?;
        Ok(K::pattern(&mut self.settled, letters, work))
    }

    fn report(&self, work: &mut [Label<M>]) -> Result<Report, Refusal> {
        self.settled.answer_report(work.len())
    }

    fn governing(&self, pipe: usize, work: &mut [Label<M>]) -> Result<bool, Refusal> {
        self.settled.answer_governing(pipe, work.len())
    }

    fn write_sheet(&self, space: &mut [u8]) -> Result<usize, Refusal> {
        self.settled.write_sheet(space)
    }
}

impl<M: PathMetric, K: Keeping> FlowEngine for FlowKeeper<M, K> {
    type Metric = M;

    ghost manner = { K.manner };

    ghost kept = { λ e. flow_of e.settled.table };

    ghost greatest = { λ e. kept_greatest e.settled };

    ghost near = { λ e. kept_near e.settled };

    ghost far = { λ e. kept_far e.settled };

    ghost works = { Prim.search rules };

    fn read_flow(&self, row: &mut [u32]) -> Result<usize, Refusal> {
        self.settled.read_flow(row)
    }
}
