ghost use Rattle.std.specs.Prelude.{◌≡◌, ◌<◌, ◌≤◌, length, Ok, Err};
ghost use Rattle.network.specs.declared.valve.Valve.TheVariants.{Open, Closed};
ghost use Rattle.network.specs.Changes as changes;
ghost use Rattle.network.specs.Flows.{dry};
ghost use Rattle.network.specs.Pipes.{network_of, flow_of};
ghost use Rattle.formats.specs.declared.refusal.Refusal.TheVariants.{FewPlaces};
ghost use Rattle.formats.specs.Spaces.{put_at};
ghost use Rattle.formats.specs.Written.{sheet_of};
ghost use Rattle.interface.specs.Verdicts.{loading, opening, closing, limiting, patterned, patterning, reporting, asking, writing, reading};
ghost use Rattle.engines.specs.Admissions.{Numbered, Standing};
ghost use Rattle.engines.specs.Records.{StandsFor};

use crate::settled::Settled;
use formats::letters::check_pattern;
use formats::refusal::Refusal;
use network::governing::governs;
use network::pipe::Pipe;
use network::report::Report;
use network::table::{MOST_JUNCTIONS, MOST_LIMIT, Table};
use network::valve::Valve;
use texts::text::read_sheet;
use writing::sheet_lines::try_put_sheet;

// A call without text concerns no line. Its refusals carry 0, which `Refusal::line` and a FAIL line say for no line:
// an Option in each refusal would be None for these calls alone.
const NO_LINE: usize = 0;

// Passes a workspace of as many places as an engine may have junctions.
fn admit_places(places: usize) -> Result<(), Refusal>
    ensures { elim result [
      | Ok _ ↦ 64 ≤ places
      | Err e ↦ (places < 64) × (e ≡ FewPlaces)
    ] }
{
    if places < MOST_JUNCTIONS {
        return Err(Refusal::FewPlaces);
    }
    Ok(())
}

// The network of the sheet with which a text begins, with dry pipes, and the number of bytes taken.
pub fn admit_load(text: &[u8], places: usize) -> Result<(Table, usize), Refusal>
    ensures { elim result [
      | Ok p ↦ (loading 64 places text.now ≡ Ok (network_of p.0, p.1)) × (64 ≤ places) × (flow_of p.0 ≡ dry (network_of p.0))
      | Err e ↦ loading 64 places text.now ≡ Err e
    ] }
{
    admit_places(places)?;
    read_sheet(text, MOST_JUNCTIONS)
}

// Each call states its own verdict, and tells its caller that the places are enough, since it is the caller's slice that
// is used then.
impl Settled {
    // The pipe of that number.
    fn admit_pipe(&self, pipe: usize, places: usize) -> Result<Pipe, Refusal>
        ensures { Numbered places self.now.table pipe result }
    {
        admit_places(places)?;
        self.table.pipe(pipe).ok_or(Refusal::NoSuchPipe)
    }

    // The same, if its valve is this one; otherwise the call is refused so.
    fn admit_valve(
        &self,
        pipe: usize,
        places: usize,
        valve: Valve,
        refusal: Refusal,
    ) -> Result<Pipe, Refusal>
        ensures { Standing places self.now.table pipe valve refusal result }
    {
        let old = self.admit_pipe(pipe, places)?;
        if old.valve == valve {
            Ok(old)
        } else {
            Err(refusal)
        }
    }

    // The pipe that is to be opened.
    pub fn admit_open(&self, pipe: usize, places: usize) -> Result<Pipe, Refusal>
        ensures { elim result [
          | Ok p ↦ (opening 64 places (network_of self.now.table) pipe ≡ Ok (changes.with_pipe_open (network_of self.now.table) pipe))
              × (64 ≤ places) × StandsFor self.now.table pipe p × (p.valve ≡ Closed)
          | Err e ↦ opening 64 places (network_of self.now.table) pipe ≡ Err e
        ] }
    {
        self.admit_valve(pipe, places, Valve::Closed, Refusal::AlreadyOpen)
    }

    // The pipe that is to be closed.
    pub fn admit_close(&self, pipe: usize, places: usize) -> Result<Pipe, Refusal>
        ensures { elim result [
          | Ok p ↦ (closing 64 places (network_of self.now.table) pipe ≡ Ok (changes.with_pipe_closed (network_of self.now.table) pipe))
              × (64 ≤ places) × StandsFor self.now.table pipe p × (p.valve ≡ Open)
          | Err e ↦ closing 64 places (network_of self.now.table) pipe ≡ Err e
        ] }
    {
        self.admit_valve(pipe, places, Valve::Open, Refusal::AlreadyClosed)
    }

    // The pipe that is to have another limit.
    pub fn admit_limit(&self, pipe: usize, limit: u32, places: usize) -> Result<Pipe, Refusal>
        ensures { elim result [
          | Ok p ↦ (limiting 64 places (network_of self.now.table) pipe limit ≡ Ok (changes.with_pipe_limit (network_of self.now.table) pipe limit))
              × (64 ≤ places) × StandsFor self.now.table pipe p × (1 ≤ limit) × (limit ≤ 60000)
          | Err e ↦ limiting 64 places (network_of self.now.table) pipe limit ≡ Err e
        ] }
    {
        let old = self.admit_pipe(pipe, places)?;
        if limit < 1 || limit > MOST_LIMIT {
            return Err(Refusal::OutOfRange(NO_LINE));
        }
        Ok(old)
    }

    // Passes letters, one for each pipe, that all mean a setting.
    pub fn admit_pattern(&self, letters: &[u8], places: usize) -> Result<(), Refusal>
        ensures { elim result [
          | Ok _ ↦ (patterning 64 places (network_of self.now.table) letters.now ≡ Ok (patterned (network_of self.now.table) letters.now))
              × (64 ≤ places) × (length letters.now ≡ self.now.table.count)
          | Err e ↦ patterning 64 places (network_of self.now.table) letters.now ≡ Err e
        ] }
    {
        admit_places(places)?;
        if letters.len() != self.table.count {
            return Err(Refusal::BadLine(NO_LINE));
        }
        check_pattern(letters, NO_LINE)
    }

    // The report.
    pub fn answer_report(&self, places: usize) -> Result<Report, Refusal>
        ensures { result ≡ reporting 64 places (network_of self.now.table) }
    {
        admit_places(places)?;
        Ok(self.report)
    }

    // Whether a pipe is governing.
    pub fn answer_governing(&self, pipe: usize, places: usize) -> Result<bool, Refusal>
        ensures { result ≡ asking 64 places (network_of self.now.table) pipe }
    {
        let _ = self.admit_pipe(pipe, places)?;
        Ok(governs(&self.table, &self.report, pipe))
    }

    // The sheet of the network, at the front of the space; the answer is its length.
    pub fn write_sheet(&self, space: &mut [u8]) -> Result<usize, Refusal>
        ensures { elim result [
          | Ok n ↦ (writing (length space.old) (network_of self.now.table) ≡ Ok n) × (space.new ≡ put_at 0 (sheet_of (network_of self.now.table)) space.old)
          | Err e ↦ (writing (length space.old) (network_of self.now.table) ≡ Err e) × (space.new ≡ space.old)
        ] }
    {
        try_put_sheet(space, &self.table)
    }

    // The flow, a number for each pipe, at the front of the row; the answer is the number of pipes.
    pub fn read_flow(&self, row: &mut [u32]) -> Result<usize, Refusal>
        ensures { elim result [
          | Ok n ↦ (reading (length row.old) (network_of self.now.table) ≡ Ok n) × (row.new ≡ put_at 0 (flow_of self.now.table) row.old)
          | Err e ↦ (reading (length row.old) (network_of self.now.table) ≡ Err e) × (row.new ≡ row.old)
        ] }
    {
        let pipes = self.table.pipe_rows();
        if row.len() < pipes.len() {
            return Err(Refusal::LittleSpace);
        }
        // By the pipe's number: the row zipped with the pipes was tried, and left nothing known behind the loop.
        for (k, pipe) in pipes.iter().enumerate() {
            row[k] = pipe.flow;
        }
        Ok(pipes.len())
    }
}
