ghost use Rattle.std.specs.Prelude.{◌≡◌, ◌+◌, ◌*◌, ◌<◌, ◌≤◌, true, List, map, length, take, Some, Ok, Err};
ghost use Rattle.std.specs.List.{AllByRecursion};
ghost use Rattle.network.specs.Network.{Network};
ghost use Rattle.network.specs.Reports.{report_of};
ghost use Rattle.network.specs.Residual.{size};
ghost use Rattle.formats.specs.Letters.{is_pattern};
ghost use Rattle.formats.specs.Schedules.{Timed, SoundStep, timed};
ghost use Rattle.formats.specs.Spaces.{put_at};
ghost use Rattle.texts.specs.Conditions.{first_missed};
ghost use Rattle.texts.specs.Laws.{TextRead};
ghost use Rattle.interface.specs.Verdicts.{patterned};
ghost use Rattle.rating.specs.Conditions.{page_conditions};
ghost use Rattle.rating.specs.Pages.{governing_row, step_lines, all_lines, litres, last_network, page_of, page_length_of};
ghost use Rattle.rating.specs.Ratings.{rating};

use formats::refusal::Refusal;
use formats::schedule::{MOST_STEPS, TimedPattern};
use interface::engine::Engine;
use network::table::{MOST_JUNCTIONS, MOST_PIPES};
use texts::extent::Extent;
use texts::text::read_text;
use writing::page::{GOVERNING_BYTES, RATE_BYTES, TOTAL_BYTES, put_governing, put_rate, put_total};

// The bytes of a step's two lines beside their letters.
const STEP_BYTES: usize = RATE_BYTES + GOVERNING_BYTES;

// The bytes of the longest page.
pub const MOST_PAGE: usize = MOST_STEPS * (MOST_JUNCTIONS + MOST_PIPES + STEP_BYTES) + TOTAL_BYTES;

// The bytes of a step's two lines.
fn step_length(extent: &Extent) -> usize
    ensures { result ≡ extent.now.junctions + extent.now.pipes + 29 }
{
    extent.junctions + extent.pipes + STEP_BYTES
}

// The bytes of the page. None is longer than the longest.
pub fn page_length(extent: &Extent) -> usize
    ensures length { result ≡ page_length_of extent.now.steps extent.now.junctions extent.now.pipes }
    ensures most { result ≤ MOST_PAGE }
{
    extent.steps * step_length(extent) + TOTAL_BYTES
}

// An engine with a workspace that is large enough, and how much it is to rate: its network has so many junctions and pipes.
// That a method leaves the `ghost_name` of a reference as it was says that the reference is still the caller's. Each method
// states it: it speaks of two moments, before and after, and a field speaks of one.
#[derive(Drop)]
struct Rater<'e, 'w, E: Engine> {
    engine: &'e mut E,
    work: &'w mut [E::Place],
    extent: Extent,
    ghost placed: { E.Engine.MOST_JUNCTIONS ≤ length work.now },
    ghost joined: { extent.junctions ≡ (E.Engine.meaning engine.now).junctions },
    ghost sized: { extent.pipes ≡ size (E.Engine.meaning engine.now) },
}

impl<E: Engine> Rater<'_, '_, E> {
    // Which pipes are governing, a mark for each.
    fn ask_governing(&mut self, marks: &mut [bool])
        requires sized { length marks.old ≡ self.old.extent.pipes }
        ensures row { marks.new ≡ governing_row (E.Engine.meaning self.old.engine.now) self.old.extent.pipes }
        ensures same_engine { self.new.engine ≡ self.old.engine }
        ensures same_extent { self.new.extent ≡ self.old.extent }
        ensures same_work { self.new.work.ghost_name ≡ self.old.work.ghost_name }
    {
        for (k, mark) in marks.iter_mut().enumerate() {
            *mark = self.engine.governing(k, self.work).unwrap();
        }
    }

    // Sets the valves for a step and writes its two lines, at a place that is handed on to both: they take space and
    // place, as their crate says why. The answer is the value.
    fn rate_step(&mut self, page: &mut [u8], at: usize, step: usize, letters: &[u8]) -> u32
        requires long { length letters.now ≡ self.old.extent.pipes }
        requires sound { is_pattern letters.now ≡ true }
        requires fits { at + (self.old.extent.junctions + self.old.extent.pipes + 29) ≤ length page.old }
        ensures means { E.Engine.meaning self.new.engine.now ≡ patterned (E.Engine.meaning self.old.engine.now) letters.now }
        ensures written { page.new ≡ put_at at (step_lines step (patterned (E.Engine.meaning self.old.engine.now) letters.now)) page.old }
        ensures value { result ≡ (report_of (patterned (E.Engine.meaning self.old.engine.now) letters.now)).value }
        ensures small { result ≤ 30720000 }
        ensures same_extent { self.new.extent ≡ self.old.extent }
        ensures same_engine { self.new.engine.ghost_name ≡ self.old.engine.ghost_name }
        ensures same_work { self.new.work.ghost_name ≡ self.old.work.ghost_name }
    {
        self.engine.pattern(letters, self.work).unwrap();
        let report = self.engine.report(self.work).unwrap();
        put_rate(page, at, step, &report, self.extent.junctions);
        let next = at + self.extent.junctions + RATE_BYTES;
        // No heap: an array for the most pipes, of which a slice of as many as there are is passed on.
        let mut marks = [false; MOST_PIPES];
        let marks = &mut marks[..self.extent.pipes];
        self.ask_governing(marks);
        put_governing(page, next, step, marks);
        report.value
    }

    // Rates the steps one after the other. The answer is the litres of them all.
    fn rate_steps(&mut self, page: &mut [u8], steps: &[TimedPattern]) -> u64
        requires long { length steps.now ≡ self.old.extent.steps }
        requires sound { AllByRecursion (SoundStep self.old.extent.pipes) (map timed steps.now) }
        requires fits { self.old.extent.steps * (self.old.extent.junctions + self.old.extent.pipes + 29) ≤ length page.old }
        ensures means { E.Engine.meaning self.new.engine.now ≡ last_network (E.Engine.meaning self.old.engine.now) (map timed steps.now) }
        ensures written { page.new ≡ put_at 0 (all_lines 1 (E.Engine.meaning self.old.engine.now) (map timed steps.now)) page.old }
        ensures total { result ≡ litres (E.Engine.meaning self.old.engine.now) (map timed steps.now) }
        ensures same_engine { self.new.engine.ghost_name ≡ self.old.engine.ghost_name }
        ensures same_work { self.new.work.ghost_name ≡ self.old.work.ghost_name }
    {
        let length = step_length(&self.extent);
        let mut total = 0;
        for (k, step) in steps.iter().enumerate() {
            let value = self.rate_step(page, k * length, k + 1, step.letters);
            total += value as u64 * step.minutes as u64;
        }
        total
    }
}

// The rating page of a text, a sheet and the schedule that follows it. The answer is the page's length.
// Nothing is changed before all is read and the page is known to fit.
pub fn rate<E: Engine>(
    engine: &mut E,
    text: &[u8],
    work: &mut [E::Place],
    page: &mut [u8],
) -> Result<usize, Refusal>
    ensures { elim result [
      | Ok n ↦ (w : Network) × (ss : List Timed)
          × (rating E.Engine.MOST_JUNCTIONS (length work.old) text.now (length page.old) ≡ Ok (w, ss))
          × (n ≡ length (page_of w ss))
          × (n ≡ page_length_of (length ss) w.junctions (size w))
          × (page.new ≡ put_at 0 (page_of w ss) page.old)
          × (E.Engine.meaning engine.new ≡ last_network w ss)
          × TextRead E.Engine.MOST_JUNCTIONS text.now w ss
      | Err e ↦ (rating E.Engine.MOST_JUNCTIONS (length work.old) text.now (length page.old) ≡ Err e)
          × (first_missed (page_conditions E.Engine.MOST_JUNCTIONS (length work.old) text.now (length page.old)) ≡ Some e)
          × (engine.new ≡ engine.old)
          × (work.new ≡ work.old)
          × (page.new ≡ page.old)
    ] }
{
    let most = E::MOST_JUNCTIONS;
    if work.len() < most {
        return Err(Refusal::FewPlaces);
    }
    let (extent, schedule) = read_text(text, most)?;
    let length = page_length(&extent);
    if page.len() < length {
        return Err(Refusal::LittleSpace);
    }
    engine.load(text, work).unwrap();
    let mut rater = Rater {
        engine,
        work,
        extent,
    };
    let total = rater.rate_steps(page, &schedule.steps[..schedule.count]);
    put_total(page, length - TOTAL_BYTES, total);
    Ok(length)
}
