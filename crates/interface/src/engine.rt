ghost use Rattle.std.specs.Prelude.{◌≡◌, ℕ, ◌≤◌, List, length, Ok, Err, OnErr};
ghost use Rattle.network.specs.Flows.{Greatest};
ghost use Rattle.network.specs.Network.{Network, Sound, bare};
ghost use Rattle.network.specs.Reaches.{Reached, Apart};
ghost use Rattle.network.specs.Reports.{report_of};
ghost use Rattle.formats.specs.Spaces.{put_at};
ghost use Rattle.formats.specs.Written.{sheet_of};
ghost use Rattle.interface.specs.Verdicts.{loading, opening, closing, limiting, patterning, reporting, asking, writing, reading};
ghost use Rattle.interface.specs.Works.{Change, Changes, loaded, opened, closed, limited, lettered, Manner, Works};

use formats::refusal::Refusal;
use network::report::Report;
use paths::metric::PathMetric;

// What rates a network. An engine means one network; each call is refused, or carried out in full, as its verdict says.
// A refused call leaves the engine and the workspace as they were.
pub trait Engine {
    // The most junctions that the engine takes, and so the fewest workspace places that it asks for.
    const MOST_JUNCTIONS: usize;

    ghost MOST_JUNCTIONS: { ℕ };

    // An element of the workspace.
    type Place;

    // Such an element, whatever it holds. Without one there could be no workspace, and an engine could refuse every call
    // for want of it.
    fn place() -> Self::Place;

    ghost meaning: { Self → Network };

    // so many augmentations led from the first state by the change to the second
    ghost counted: { Self → Change → Self → ℕ → Type 0 };

    // A bare engine: two junctions and no pipe.
    fn new() -> Self
        ensures { meaning result ≡ bare };

    // The network becomes that of the sheet with which the text begins. The answer is the number of bytes taken.
    fn load(&mut self, text: &[u8], work: &mut [Self::Place]) -> Result<usize, Refusal>
        ensures { elim result [
          | Ok n ↦ (loading MOST_JUNCTIONS (length work.old) text.now ≡ Ok (meaning self.new, n))
              × ((m : ℕ) × counted self.old (loaded (meaning self.new)) self.new m)
          | Err e ↦ (loading MOST_JUNCTIONS (length work.old) text.now ≡ Err e) × (self.new ≡ self.old) × (work.new ≡ work.old)
        ] };

    // The valve of a closed pipe opens. The answer is a pair, which callers take apart at once: the change of the greatest
    // value, and the number of augmentations.
    fn open(&mut self, pipe: usize, work: &mut [Self::Place]) -> Result<(i64, u32), Refusal>
        ensures { Changes meaning counted (opening MOST_JUNCTIONS (length work.old) (meaning self.old) pipe) (opened pipe) self.old self.new work.old work.new result };

    // The valve of an open pipe closes. The answer is as for opening.
    fn close(&mut self, pipe: usize, work: &mut [Self::Place]) -> Result<(i64, u32), Refusal>
        ensures { Changes meaning counted (closing MOST_JUNCTIONS (length work.old) (meaning self.old) pipe) (closed pipe) self.old self.new work.old work.new result };

    // A pipe, open or closed, gets another limit, which may be the one it had. The answer is as for opening.
    fn limit(
        &mut self,
        pipe: usize,
        limit: u32,
        work: &mut [Self::Place],
    ) -> Result<(i64, u32), Refusal>
        ensures { Changes meaning counted (limiting MOST_JUNCTIONS (length work.old) (meaning self.old) pipe limit) (limited pipe limit) self.old self.new work.old work.new result };

    // All valves are set by a letter for each pipe. The answer is as for opening.
    fn pattern(&mut self, letters: &[u8], work: &mut [Self::Place]) -> Result<(i64, u32), Refusal>
        ensures { Changes meaning counted (patterning MOST_JUNCTIONS (length work.old) (meaning self.old) letters.now) (lettered letters.now) self.old self.new work.old work.new result };

    // The least capacity, the junctions in every minimum cut and those in at least one.
    fn report(&self, work: &mut [Self::Place]) -> Result<Report, Refusal>
        ensures answer { result ≡ reporting MOST_JUNCTIONS (length work.old) (meaning self.now) }
        ensures kept { OnErr result (work.new ≡ work.old) };

    // Whether a pipe is governing.
    fn governing(&self, pipe: usize, work: &mut [Self::Place]) -> Result<bool, Refusal>
        ensures answer { result ≡ asking MOST_JUNCTIONS (length work.old) (meaning self.now) pipe }
        ensures kept { OnErr result (work.new ≡ work.old) };

    // The sheet of the network goes to the front of the space; bytes beyond it stay. The answer is its length.
    fn write_sheet(&self, space: &mut [u8]) -> Result<usize, Refusal>
        ensures { elim result [
          | Ok n ↦ (writing (length space.old) (meaning self.now) ≡ Ok n) × (space.new ≡ put_at 0 (sheet_of (meaning self.now)) space.old)
          | Err e ↦ (writing (length space.old) (meaning self.now) ≡ Err e) × (space.new ≡ space.old)
        ] };

    ghost sized: { (2 ≤ MOST_JUNCTIONS) × (MOST_JUNCTIONS ≤ 64) };

    ghost sound: { (e : Self) → Sound (meaning e) × ((meaning e).junctions ≤ MOST_JUNCTIONS) };
}

// An engine that keeps a flow, which is greatest, and comes to it by augmentations along best paths of its metric.
pub trait FlowEngine: Engine {
    type Metric: PathMetric;

    ghost manner: { Manner };

    ghost kept: { Self → List ℕ };

    // The kept flow goes to the front of the row, a number for each pipe; numbers beyond it stay. The answer is how many
    // there are.
    fn read_flow(&self, row: &mut [u32]) -> Result<usize, Refusal>
        ensures { elim result [
          | Ok n ↦ (reading (length row.old) (Self.Engine.meaning self.now) ≡ Ok n) × (row.new ≡ put_at 0 (kept self.now) row.old)
          | Err e ↦ (reading (length row.old) (Self.Engine.meaning self.now) ≡ Err e) × (row.new ≡ row.old)
        ] };

    ghost greatest: { (e : Self) → Greatest (Self.Engine.meaning e) (kept e) };

    // the two sides, read off the residual graph of the kept flow
    ghost near: { (e : Self) → Reached (Self.Engine.meaning e) (kept e) (Self.Engine.meaning e).pump (report_of (Self.Engine.meaning e)).near };

    ghost far: { (e : Self) → Apart (Self.Engine.meaning e) (kept e) (Self.Engine.meaning e).outlet (report_of (Self.Engine.meaning e)).far };

    // what is counted is augmentations, from the flow kept before or from dry pipes, as the engine's manner is
    ghost works: { (a : Self) (c : Change) (b : Self) (n : ℕ) → Self.Engine.counted a c b n → Works manner Self.Metric.PathMetric.good Self.Metric.PathMetric.start Self.Metric.PathMetric.extended (Self.Engine.meaning a) (kept a) c n (kept b) };
}
