ghost use Rattle.std.specs.Prelude.{◌≡◌, ℕ, ◌+◌, ◌≤◌, map, length, take, drop, Ok, Err, codes};
ghost use Rattle.std.specs.List.{AllByRecursion};
ghost use Rattle.formats.specs.Readers.{rest, LinesRead};
ghost use Rattle.formats.specs.Schedules.{Timed, SoundStep, step_in, schedule_in, timed};
ghost use Rattle.formats.specs.Sheets.{number_at};

use crate::fields::COUNT_COLUMNS;
use crate::kind::Kind;
use crate::letters::check_pattern;
use crate::reader::{Line, Reader};
use crate::refusal::Refusal;
use crate::schedule::{MOST_STEPS, Schedule, TimedPattern};

const MOST_MINUTES: usize = 1_440;

// The first line of a schedule.
#[derive(Clone, Copy)]
struct CountLine;

impl<'a> Kind<'a> for CountLine {
    type Told = usize;

    ghost Meaning = { ℕ };

    ghost meaning = { λ n. n };

    ghost word = { codes "SCHD" };

    ghost columns = { λ k. 9 };

    ghost says = { λ k i. number_at i 0 1 100 };

    ghost Sound = { λ k n. (1 ≤ n) × (n ≤ 100) };

    fn word(&self) -> &'static [u8; 4] {
        b"SCHD"
    }

    fn columns(&self) -> usize {
        COUNT_COLUMNS
    }

    fn read(&self, line: &Line<'a>) -> Result<usize, Refusal> {
        line.field(0, 1, MOST_STEPS)
    }
}

// A step line of a schedule, with a letter for each of so many pipes.
#[derive(Clone, Copy)]
struct StepLine {
    pipes: usize,
    ghost few: { pipes ≤ 512 },
}

impl<'a> Kind<'a> for StepLine {
    type Told = TimedPattern<'a>;

    ghost Meaning = { Timed };

    ghost meaning = { timed };

    ghost word = { codes "STEP" };

    ghost columns = { λ k. 9 + k.pipes };

    ghost says = { λ k. step_in };

    ghost Sound = { λ k s. SoundStep k.pipes (timed s) };

    fn word(&self) -> &'static [u8; 4]
        ensures { result.now ≡ codes "STEP" }
    {
        b"STEP"
    }

    fn columns(&self) -> usize
        ensures is { result ≡ 9 + self.now.pipes }
        ensures worded { 4 ≤ result }
    {
        COUNT_COLUMNS + self.pipes
    }

    fn read(&self, line: &Line<'a>) -> Result<TimedPattern<'a>, Refusal>
        requires { length line.now.bytes.now ≡ 9 + self.now.pipes }
        ensures { elim result [
          | Ok s ↦ (step_in line.now.number line.now.bytes.now ≡ Ok (timed s)) × SoundStep self.now.pipes (timed s)
          | Err e ↦ step_in line.now.number line.now.bytes.now ≡ Err e
        ] }
    {
        let minutes = line.field(0, 1, MOST_MINUTES)?;
        let letters = &line.bytes[COUNT_COLUMNS..];
        check_pattern(letters, line.number)?;
        Ok(TimedPattern { minutes, letters })
    }
}

impl<'a> Reader<'a> {
    // A schedule for so many pipes, up to the end of the text.
    pub fn schedule(&mut self, pipes: usize) -> Result<Schedule<'a>, Refusal>
        requires { pipes ≤ 512 }
        ensures { elim result [
          | Ok s ↦ (schedule_in pipes (self.old.lines + 1) (rest self.old) ≡ Ok (map timed (take s.count s.steps)))
              × AllByRecursion (SoundStep pipes) (map timed (take s.count s.steps))
              × (length (rest self.new) ≡ 0)
              × LinesRead (1 + s.count) self.old self.new
          | Err e ↦ schedule_in pipes (self.old.lines + 1) (rest self.old) ≡ Err e
        ] }
    {
        let count = self.read_line(&CountLine)?;
        // No heap: an array for the most steps, of which those of the schedule are filled.
        let mut steps = [TimedPattern::UNUSED; MOST_STEPS];
        self.fill(&StepLine { pipes }, &mut steps[..count])?;
        if self.at_end() {
            Ok(Schedule { steps, count })
        } else {
            Err(Refusal::TrailingBytes(self.lines + 1))
        }
    }
}
