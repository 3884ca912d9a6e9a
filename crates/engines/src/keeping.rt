ghost use Rattle.std.specs.Prelude.{◌≡◌, ◌≤◌, length};
ghost use Rattle.network.specs.declared.valve.Valve.TheVariants.{Open, Closed};
ghost use Rattle.interface.specs.Works.{opened, closed, limited, lettered, Manner};
ghost use Rattle.engines.specs.Changing.{CarriedOut};
ghost use Rattle.engines.specs.Records.{StandsFor};

use crate::settled::Settled;
use network::pipe::Pipe;
use paths::label::Label;
use paths::metric::PathMetric;

// How a change that was admitted is carried out: from which flow, and by which augmentations, the new greatest flow comes.
// Each answer is the change of the greatest value, and the number of augmentations.
// Pipe and record are two parameters: a struct of them could not say that the record stands for that pipe of this table.
// Nor is there a type for a workspace with places enough: it would lend the workspace, which a refused call leaves alone.
pub trait Keeping {
    ghost manner: { Manner };

    // The valve of a closed pipe opens.
    fn open<M: PathMetric>(
        settled: &mut Settled,
        pipe: usize,
        old: Pipe,
        work: &mut [Label<M>],
    ) -> (i64, u32)
        requires places { 64 ≤ length work.old }
        requires stands { StandsFor settled.old.table pipe old }
        requires closed { old.valve ≡ Closed }
        ensures { CarriedOut manner M.good M.start M.extended settled.old.table settled.new.table (opened pipe) result.0 result.1 };

    // The valve of an open pipe closes.
    fn close<M: PathMetric>(
        settled: &mut Settled,
        pipe: usize,
        old: Pipe,
        work: &mut [Label<M>],
    ) -> (i64, u32)
        requires places { 64 ≤ length work.old }
        requires stands { StandsFor settled.old.table pipe old }
        requires open { old.valve ≡ Open }
        ensures { CarriedOut manner M.good M.start M.extended settled.old.table settled.new.table (closed pipe) result.0 result.1 };

    // A pipe, open or closed, gets another limit.
    fn limit<M: PathMetric>(
        settled: &mut Settled,
        pipe: usize,
        old: Pipe,
        limit: u32,
        work: &mut [Label<M>],
    ) -> (i64, u32)
        requires places { 64 ≤ length work.old }
        requires stands { StandsFor settled.old.table pipe old }
        requires some { 1 ≤ limit }
        requires few { limit ≤ 60000 }
        ensures { CarriedOut manner M.good M.start M.extended settled.old.table settled.new.table (limited pipe limit) result.0 result.1 };

    // All valves are set by a letter for each pipe.
    fn pattern<M: PathMetric>(
        settled: &mut Settled,
        letters: &[u8],
        work: &mut [Label<M>],
    ) -> (i64, u32)
        requires places { 64 ≤ length work.old }
        requires long { length letters.now ≡ settled.old.table.count }
        ensures { CarriedOut manner M.good M.start M.extended settled.old.table settled.new.table (lettered letters.now) result.0 result.1 };
}
