ghost use Rattle.std.specs.Prelude.{◌≡◌, ◌≤◌, ◌==◌, ◌&&◌, ◌-ℤ◌, pos, drop, length, nat_le, vec_len, Decides};
ghost use Rattle.std.specs.List.{list_all};

use crate::plan::{LINE_BYTES, Plan};
use crate::random::Random;
use crate::request::{Damage, Request};
use crate::tally::{Log, Tally};
use formats::refusal::Refusal;
use interface::engine::{Engine, FlowEngine};
use network::report::Report;
use network::table::MOST_PIPES;
use std::alloc::{AllocError, Global};

// Workspace, space and row are so much longer than any engine asks for.
pub const MORE: usize = 8;

// What spaces and rows hold before a call.
const MARK: u8 = 0x5a;

const NUMBER_MARK: u32 = 0x5a5a_5a5a;

// What a call answers that is carried out: the change and the count, or nothing where it is none that changes a network.
type Answer = Option<(i64, u32)>;

// Whether all items are the mark.
fn marked<T: PartialEq>(items: &[T], mark: &T) -> bool
    ensures { result ≡ list_all (λ x. T.eq x mark.now) items.now }
{
    items.iter().all(|item| item == mark)
}

// Whether a call on marked items has its answer at their front, so many as are due, and left the others alone, or all,
// refused.
fn leaves_marks<T: PartialEq>(
    answer: &Result<usize, Refusal>,
    due: usize,
    items: &[T],
    mark: &T,
) -> bool
    ensures { result ≡ elim answer.now [
      | Ok n ↦ n == due && nat_le due (length items.now) && list_all (λ x. T.eq x mark.now) (drop due items.now)
      | Err _ ↦ list_all (λ x. T.eq x mark.now) items.now
    ] }
{
    match answer {
        Ok(count) => *count == due && due <= items.len() && marked(&items[due..], mark),
        Err(_) => marked(items, mark),
    }
}

// Whether a call was answered as is due: carried out, with the change between the reports, or refused for that reason,
// with the report as it was.
fn is_due(
    answer: Result<Answer, Refusal>,
    due: Result<(), Refusal>,
    before: &Report,
    after: &Report,
) -> bool
    ensures { Decides result (elim answer [
      | Ok o ↦ elim due [
        | Ok _ ↦ elim o [ Some d ↦ d.0 ≡ pos after.now.value -ℤ pos before.now.value | None ↦ before.now ≡ after.now ]
        | Err _ ↦ ⊥
      ]
      | Err e ↦ elim due [ Ok _ ↦ ⊥ | Err f ↦ (e ≡ f) × (before.now ≡ after.now) ]
    ]) }
{
    match (answer, due) {
        (Ok(Some((change, _))), Ok(())) => {
            change == i64::from(after.value).wrapping_sub(i64::from(before.value))
        }
        (Ok(None), Ok(())) => *before == *after,
        (Err(refusal), Err(other)) => refusal == other && *before == *after,
        _ => false,
    }
}

// An engine and the plan of what it should mean, with the room that its calls are given, and the count of what was checked.
#[derive(Drop)]
pub struct Trial<E: FlowEngine + Drop>
where
    E::Place: Drop,
{
    engine: E,
    plan: Plan,
    // What the engine reported last, if it did.
    report: Option<Report>,
    work: Vec<E::Place>,
    space: Vec<u8>,
    row: Vec<u32>,
    tally: Tally,
}

impl<E: FlowEngine + Drop> Trial<E>
where
    E::Place: Drop,
{
    // A bare engine, as its plan says, and room for the largest network.
    pub fn new(heap: Global, work: Vec<E::Place>) -> Result<Trial<E>, AllocError> {
        Ok(Trial {
            engine: E::new(),
            plan: Plan::new(heap, 2, 0, 1)?,
            report: None,
            work,
            space: vec![in heap; 0u8; (1 + MOST_PIPES) * LINE_BYTES + MORE]?,
            row: vec![in heap; 0u32; MOST_PIPES + MORE]?,
            tally: Tally::default(),
        })
    }

    pub fn tally(&self) -> Tally {
        self.tally
    }

    // Writes the sheet into a space of the length, which must then hold it and its marks, or its marks alone.
    fn write_sheet(&mut self, length: usize) -> Result<(), Refusal> {
        let length = length.min(self.space.len());
        let space = &mut self.space[..length];
        space.fill(MARK);
        let answer = self.engine.write_sheet(space);
        let sheet = &self.plan.sheet;
        let right = leaves_marks(&answer, sheet.len(), space, &MARK);
        self.tally
            .expect(right && (answer.is_err() || space.starts_with(sheet)));
        answer?;
        Ok(())
    }

    // Reads the flow into a row of the length, which must keep its marks behind it, or everywhere.
    fn read_flow(&mut self, length: usize) -> Result<(), Refusal> {
        let length = length.min(self.row.len());
        let row = &mut self.row[..length];
        row.fill(NUMBER_MARK);
        let answer = self.engine.read_flow(row);
        let pipes = self.plan.links.len();
        self.tally
            .expect(leaves_marks(&answer, pipes, row, &NUMBER_MARK));
        answer?;
        Ok(())
    }

    // Loads the sheet with another byte at one place.
    fn load_damaged(&mut self, damage: &Damage, places: usize) -> Result<(), Refusal>
        requires { places ≤ vec_len self.old.work }
    {
        let length = self.plan.sheet.len().min(self.space.len());
        let text = &mut self.space[..length];
        text.copy_from_slice(&self.plan.sheet[..length]);
        if damage.at < length {
            text[damage.at] = damage.byte;
        }
        self.engine.load(text, &mut self.work[..places])?;
        Ok(())
    }

    // Asks one thing of the engine, with at most so many places. What it answers, but for the change and the count, must
    // be as plan and report say.
    fn ask(&mut self, request: &Request, places: usize) -> Result<Answer, Refusal> {
        let places = places.min(self.work.len());
        match request {
            Request::Load(damage) => {
                self.load_damaged(damage, places)?;
                Ok(None)
            }
            Request::Open(pipe) => {
                let answer = self.engine.open(*pipe, &mut self.work[..places])?;
                Ok(Some(answer))
            }
            Request::Close(pipe) => {
                let answer = self.engine.close(*pipe, &mut self.work[..places])?;
                Ok(Some(answer))
            }
            Request::Limit(pipe, limit) => {
                let answer = self.engine.limit(*pipe, *limit, &mut self.work[..places])?;
                Ok(Some(answer))
            }
            Request::Pattern(letters) => {
                let answer = self.engine.pattern(letters, &mut self.work[..places])?;
                Ok(Some(answer))
            }
            Request::Report => {
                let report = self.engine.report(&mut self.work[..places])?;
                self.tally.expect(self.report == Some(report));
                Ok(None)
            }
            Request::Governing(pipe) => {
                let governing = self.engine.governing(*pipe, &mut self.work[..places])?;
                let due = self.governs(*pipe);
                self.tally.expect(governing == due);
                Ok(None)
            }
            Request::WriteSheet(length) => {
                self.write_sheet(*length)?;
                Ok(None)
            }
            Request::ReadFlow(length) => {
                self.read_flow(*length)?;
                Ok(None)
            }
        }
    }

    // Whether a pipe governs by plan and report.
    fn governs(&self, pipe: usize) -> bool {
        match (self.plan.links.get(pipe), self.report) {
            (Some(link), Some(report)) => link.governs(&report),
            _ => false,
        }
    }

    // Whether the engine says of each pipe whether it governs, as plan and report do.
    fn tells_governing(&mut self, report: &Report) -> bool {
        for (pipe, link) in self.plan.links.iter().enumerate() {
            let due = link.governs(report);
            if self.engine.governing(pipe, &mut self.work) != Ok(due) {
                return false;
            }
        }
        true
    }

    // Looks at all that the engine shows, and holds it against the plan: sheet, flow, report and governing pipes.
    fn look(&mut self) {
        let (space, row) = (self.space.len(), self.row.len());
        let written = self.write_sheet(space).is_ok();
        let read = self.read_flow(row).is_ok();
        self.tally.expect(written && read);
        self.report = self.engine.report(&mut self.work).ok();
        let pipes = self.plan.links.len().min(self.row.len());
        let flows = &self.row[..pipes];
        let (conserved, shown) = match self.report {
            Some(report) => (
                self.plan.conserves(flows, report.value),
                self.plan.shows(flows, &report),
            ),
            None => (false, false),
        };
        self.tally.expect(conserved);
        self.tally.expect(shown);
        let told = match self.report {
            Some(report) => self.tells_governing(&report),
            None => false,
        };
        self.tally.expect(told);
    }

    // Gives a new engine the plan's sheet.
    fn start(&mut self) {
        self.engine = E::new();
        let taken = self.engine.load(&self.plan.sheet, &mut self.work);
        self.tally.expect(taken == Ok(self.plan.sheet.len()));
        self.look();
    }

    // One call on the engine, and a look at what it shows then.
    fn call(&mut self, request: &Request, places: usize) {
        let due = self.plan.due(request, places);
        let before = self.report;
        let answer = self.ask(request, places);
        if due.is_ok() {
            self.plan.apply(request);
        }
        self.look();
        let right = match (before, self.report) {
            (Some(before), Some(after)) => is_due(answer, due, &before, &after),
            _ => false,
        };
        self.tally.expect(right);
        if let Ok(Some((_, augmentations))) = answer {
            self.tally.count(augmentations);
        }
    }

    // A network and calls on it, drawn from the seed, on a new engine; then the last sheet on another new engine.
    // The first engine's reports are noted, and the others' compared with them.
    pub fn run(
        &mut self,
        heap: Global,
        seed: Random,
        calls: usize,
        log: &mut Log,
    ) -> Result<(), AllocError> {
        let mut random = seed;
        let shape = random.draw_shape();
        self.plan = random.draw_plan(heap, &shape)?;
        self.start();
        // By the number of the call: the first engine has no report there yet, and adds it.
        for k in 0..calls {
            let request = random.draw_request(heap, &self.plan, shape.widest)?;
            let places = random.draw_places();
            let due = self.plan.due(&request, places);
            self.call(&request, places);
            match log.reports.get(k) {
                Some(report) => self.tally.expect(self.report == *report),
                None => log.note(due, self.report)?,
            }
        }
        let last = self.report;
        self.start();
        self.tally.expect(self.report == last);
        Ok(())
    }
}
