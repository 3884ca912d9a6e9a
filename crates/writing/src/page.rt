ghost use Rattle.std.specs.Prelude.{◌≡◌, ◌+◌, ◌<◌, ◌≤◌, ℕ, map, length, slice_index, Ok, Err};
ghost use Rattle.std.specs.Fn.{FnOnceTakesAtMut, FnOnceReturnsAtMut};
ghost use Rattle.formats.specs.Pages.{side_letter, sides, rate_line, mark, governing_line, total_line, fail_line};
ghost use Rattle.formats.specs.Spaces.{put_at, Put};
ghost use Rattle.formats.specs.declared.refusal.Refusal.TheVariants.{LittleSpace};

use crate::fields::put_number;
use formats::fields::{BLANK, FIELD_COLUMNS, KIND_COLUMNS};
use formats::refusal::Refusal;
use network::report::Report;
use network::sets::holds;

// The columns of a value, and those of the total.
const VALUE_COLUMNS: usize = 9;

const TOTAL_COLUMNS: usize = 14;

// The bytes of each line beside its letters, the line feed among them.
pub const RATE_BYTES: usize = KIND_COLUMNS + FIELD_COLUMNS + VALUE_COLUMNS + 1;

pub const GOVERNING_BYTES: usize = KIND_COLUMNS + FIELD_COLUMNS + 1;

pub const TOTAL_BYTES: usize = KIND_COLUMNS + TOTAL_COLUMNS + 1;

pub const FAIL_BYTES: usize = KIND_COLUMNS + 2 * FIELD_COLUMNS + 1;

// N for the near side, B for the far side without the near, D for the rest, and beyond the 64 junctions of a side.
// The letter hangs on a junction as well as on the report, so it is no `From`.
fn letter_of_side(report: &Report, k: usize) -> u8
    ensures { result ≡ side_letter report.now k }
{
    if holds(report.near, k) {
        b'N'
    } else if holds(report.far, k) {
        b'B'
    } else {
        b'D'
    }
}

// G for a governing pipe, a point for another. It is no `From`: neither `bool` nor `u8` is of this crate.
pub fn letter_of_mark(governing: bool) -> u8
    ensures { result ≡ mark governing }
{
    if governing { b'G' } else { b'.' }
}

// Writes a letter into each column.
fn put_letters<F: Fn(usize) -> u8>(columns: &mut [u8], letter_of: F)
    requires { (k : ℕ) → k < length columns.old → F.pre letter_of k }
    ensures long { length columns.new ≡ length columns.old }
    ensures lettered { (k : ℕ) → k < length columns.old → F.post letter_of k (slice_index columns.new k) }
{
    for (k, column) in columns.iter_mut().enumerate() {
        *column = letter_of(k);
    }
}

fn put_sides(letters: &mut [u8], report: &Report)
    ensures { letters.new ≡ sides report.now (length letters.old) }
{
    put_letters(letters, |k| letter_of_side(report, k));
}

// By the pipe's number: columns zipped with the marks were tried, and left nothing known behind the loop.
fn put_marks(letters: &mut [u8], marks: &[bool])
    requires { length letters.old ≡ length marks.now }
    ensures { letters.new ≡ map mark marks.now }
{
    put_letters(letters, |k| letter_of_mark(marks[k]));
}

// These functions fill a slice that is one line long with that line. What a line says are parameters of each:
// a struct of them would be made in the one call, and taken apart in the next. Each splits its own columns off and
// names them; a list of columns to go through would have to say the same, and where each begins.

#[tactic(auto, unfolding(formats::specs::Pages::rate_line))]
fn fill_rate(line: &mut [u8], step: usize, report: &Report, junctions: usize)
    requires { length line.old ≡ junctions + 19 }
    ensures { line.new ≡ rate_line step report.now junctions }
{
    let (kind, rest) = line.split_at_mut(KIND_COLUMNS);
    let (step_number, rest) = rest.split_at_mut(FIELD_COLUMNS);
    let (value, rest) = rest.split_at_mut(VALUE_COLUMNS);
    let (letters, end) = rest.split_at_mut(junctions);
    kind.copy_from_slice(b"RATE");
    put_number(step_number, step as u64);
    put_number(value, report.value as u64);
    put_sides(letters, report);
    end.copy_from_slice(b"\n");
}

#[tactic(auto, unfolding(formats::specs::Pages::governing_line))]
fn fill_governing(line: &mut [u8], step: usize, marks: &[bool])
    requires { length line.old ≡ length marks.now + 10 }
    ensures { line.new ≡ governing_line step marks.now }
{
    let (kind, rest) = line.split_at_mut(KIND_COLUMNS);
    let (number, rest) = rest.split_at_mut(FIELD_COLUMNS);
    let (letters, end) = rest.split_at_mut(marks.len());
    kind.copy_from_slice(b"GOVN");
    put_number(number, step as u64);
    put_marks(letters, marks);
    end.copy_from_slice(b"\n");
}

#[tactic(auto, unfolding(formats::specs::Pages::total_line))]
fn fill_total(line: &mut [u8], total: u64)
    requires { length line.old ≡ 19 }
    ensures { line.new ≡ total_line total }
{
    let (kind, rest) = line.split_at_mut(KIND_COLUMNS);
    let (number, end) = rest.split_at_mut(TOTAL_COLUMNS);
    kind.copy_from_slice(b"TOTL");
    put_number(number, total);
    end.copy_from_slice(b"\n");
}

#[tactic(auto, unfolding(formats::specs::Pages::fail_line))]
fn fill_fail(line: &mut [u8], refusal: &Refusal)
    requires { length line.old ≡ 15 }
    ensures { line.new ≡ fail_line refusal.now }
{
    let (kind, rest) = line.split_at_mut(KIND_COLUMNS);
    let (reason, rest) = rest.split_at_mut(FIELD_COLUMNS);
    let (at_line, end) = rest.split_at_mut(FIELD_COLUMNS);
    kind.copy_from_slice(b"FAIL");
    put_number(reason, refusal.number() as u64);
    put_number(at_line, refusal.line() as u64);
    end.copy_from_slice(b"\n");
}

// These functions write one line each, for callers that have the room.
// They take the whole space and the line's place: over `space[at..]`, the calls below that test the room were tried and did
// not close, since each would have to put the part back into the whole.

// The RATE line of a step.
#[tactic(auto, using(crate::proofs::Puts::put_part, crate::proofs::PageLines::rate_length))]
pub fn put_rate(space: &mut [u8], at: usize, step: usize, report: &Report, junctions: usize)
    requires { at + junctions + 19 ≤ length space.old }
    ensures { space.new ≡ put_at at (rate_line step report.now junctions) space.old }
{
    fill_rate(
        &mut space[at..at + junctions + RATE_BYTES],
        step,
        report,
        junctions,
    );
}

// The GOVN line of a step, with a mark for each pipe.
#[tactic(auto, using(crate::proofs::Puts::put_part, crate::proofs::PageLines::governing_length))]
pub fn put_governing(space: &mut [u8], at: usize, step: usize, marks: &[bool])
    requires { at + length marks.now + 10 ≤ length space.old }
    ensures { space.new ≡ put_at at (governing_line step marks.now) space.old }
{
    fill_governing(
        &mut space[at..at + marks.len() + GOVERNING_BYTES],
        step,
        marks,
    );
}

// The TOTL line.
#[tactic(auto, using(crate::proofs::Puts::put_part, crate::proofs::PageLines::total_length))]
pub fn put_total(space: &mut [u8], at: usize, total: u64)
    requires { at + 19 ≤ length space.old }
    ensures { space.new ≡ put_at at (total_line total) space.old }
{
    fill_total(&mut space[at..at + TOTAL_BYTES], total);
}

// The FAIL line of a refusal, at the front of the space.
#[tactic(auto, using(crate::proofs::PageLines::fail_length), unfolding(formats::specs::Spaces::put_at))]
pub fn put_fail(space: &mut [u8], refusal: &Refusal)
    requires { 15 ≤ length space.old }
    ensures { space.new ≡ put_at 0 (fail_line refusal.now) space.old }
{
    fill_fail(&mut space[..FAIL_BYTES], refusal);
}

// The FAIL line of a refusal.
pub fn fail_line(refusal: &Refusal) -> [u8; FAIL_BYTES]
    ensures { result ≡ fail_line refusal.now }
{
    let mut line = [BLANK; FAIL_BYTES];
    fill_fail(&mut line, refusal);
    line
}

// Writes a line that begins at `at`, of so many bytes and letters, if the space has room for it.
// The answer is the place behind the line; where it does not fit, the space stays as it was.
// A place beyond the space's end is refused, so there may be no `space[at..]` to take for the two.
fn put_where_room<F: FnOnce(&mut [u8])>(
    space: &mut [u8],
    at: usize,
    bytes: usize,
    letters: usize,
    put: F,
) -> Result<usize, Refusal>
    requires { at + (bytes + letters) ≤ length space.old → FnOnceTakesAtMut F.FnOnce put space.old }
    ensures { elim result [
      | Ok n ↦ (n ≡ at + (bytes + letters)) × (n ≤ length space.old) × FnOnceReturnsAtMut F.FnOnce put space.old tt space.new
      | Err e ↦ (e ≡ LittleSpace) × (length space.old < at + (bytes + letters)) × (space.new ≡ space.old)
    ] }
{
    if at > space.len() || space.len() - at < bytes || space.len() - at - bytes < letters {
        return Err(Refusal::LittleSpace);
    }
    put(space);
    Ok(at + bytes + letters)
}

#[tactic(auto, using(crate::proofs::PageLines::rate_length))]
pub fn try_put_rate(
    space: &mut [u8],
    at: usize,
    step: usize,
    report: &Report,
    junctions: usize,
) -> Result<usize, Refusal>
    ensures { Put at (rate_line step report.now junctions) space.old result space.new }
{
    put_where_room(space, at, RATE_BYTES, junctions, |space| {
        put_rate(space, at, step, report, junctions)
    })
}

#[tactic(auto, using(crate::proofs::PageLines::governing_length))]
pub fn try_put_governing(
    space: &mut [u8],
    at: usize,
    step: usize,
    marks: &[bool],
) -> Result<usize, Refusal>
    ensures { Put at (governing_line step marks.now) space.old result space.new }
{
    put_where_room(space, at, GOVERNING_BYTES, marks.len(), |space| {
        put_governing(space, at, step, marks)
    })
}

#[tactic(auto, using(crate::proofs::PageLines::total_length))]
pub fn try_put_total(space: &mut [u8], at: usize, total: u64) -> Result<usize, Refusal>
    ensures { Put at (total_line total) space.old result space.new }
{
    put_where_room(space, at, TOTAL_BYTES, 0, |space| {
        put_total(space, at, total)
    })
}

#[tactic(auto, using(crate::proofs::PageLines::fail_length))]
pub fn try_put_fail(space: &mut [u8], refusal: &Refusal) -> Result<usize, Refusal>
    ensures { Put 0 (fail_line refusal.now) space.old result space.new }
{
    put_where_room(space, 0, FAIL_BYTES, 0, |space| put_fail(space, refusal))
}
