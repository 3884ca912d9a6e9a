#![tactic(auto)]

ghost use Rattle.std.specs.Prelude.{◌≡◌, ◌==◌, length, min, true, false, Decides, Ok};
ghost use Rattle.std.specs.List.{list_all};
ghost use Rattle.formats.specs.Sheets.{sheet_in, and_then};
ghost use Rattle.trials.specs.Rated.{Rated};

mod cases;

use cases::{Case, Cases, Mark};
use engines::cold::ColdEngine;
use engines::warm::WarmEngine;
use formats::refusal::Refusal;
use interface::engine::Engine;
use network::table::MOST_JUNCTIONS;
use paths::fewest::Fewest;
use paths::label::Label;
use paths::widest::Widest;
use rating::page::{MOST_PAGE, rate};
use std::io;
use std::io::{Read, Write};
use texts::text::read_sheet;
use writing::page::{FAIL_BYTES, TOTAL_BYTES, fail_line};
use writing::sheet_lines::{MOST_SHEET, try_put_sheet};

// What every byte of a page space holds before a text is rated. No page has such a byte.
const UNWRITTEN: u8 = b'~';

// A text to be rated, with so many workspace places and so many bytes of the space that is there.
#[derive(Clone, Copy)]
struct Task<'a> {
    text: &'a [u8],
    places: usize,
    room: usize,
}

// The length of a text's page; 0 where the text is refused.
fn length_of_page(text: &[u8], space: &mut [u8]) -> usize {
    let mut work = [Label::<Fewest>::unreached(); MOST_JUNCTIONS];
    let mut engine = WarmEngine::<Fewest>::new();
    rate(&mut engine, text, &mut work, space).unwrap_or(0)
}

// Rates a text by a new engine, on a space in which nothing was written.
fn rate_by<E: Engine + Drop>(
    task: &Task,
    work: &mut [E::Place],
    space: &mut [u8],
) -> Result<usize, Refusal>
    ensures { Rated E.Engine.MOST_JUNCTIONS (min task.now.places (length work.old)) task.now.text.now (min task.now.room (length space.old)) (length space.old) result space.new }
{
    let mut engine = E::new();
    space.fill(UNWRITTEN);
    let places = task.places.min(work.len());
    let room = task.room.min(space.len());
    rate(
        &mut engine,
        task.text,
        &mut work[..places],
        &mut space[..room],
    )
}

// Whether another kind of engine answers and writes the same: whether the first rated the text as it is to be rated.
fn agrees<E: Engine + Drop>(
    task: &Task,
    work: &mut [E::Place],
    answer: &Result<usize, Refusal>,
    first: &[u8],
    space: &mut [u8],
) -> bool
    ensures { Decides result (Rated E.Engine.MOST_JUNCTIONS (min task.now.places (length work.old)) task.now.text.now (min task.now.room (length space.old)) (length space.old) answer.now first.now) }
{
    rate_by::<E>(task, work, space) == *answer && *first == *space
}

// Whether the other three engines answer and write what the first did.
fn others_agree(
    task: &Task,
    answer: &Result<usize, Refusal>,
    first: &[u8],
    space: &mut [u8],
) -> bool
    ensures { Decides result (Rated 64 (min task.now.places 64) task.now.text.now (min task.now.room (length space.old)) (length space.old) answer.now first.now) }
{
    let mut few = [Label::<Fewest>::unreached(); MOST_JUNCTIONS];
    let mut wide = [Label::<Widest>::unreached(); MOST_JUNCTIONS];
    agrees::<WarmEngine<Widest>>(task, &mut wide, answer, first, space)
        && agrees::<ColdEngine<Fewest>>(task, &mut few, answer, first, space)
        && agrees::<ColdEngine<Widest>>(task, &mut wide, answer, first, space)
}

// Rates a text by the four engines. The answer is the first one's, as is what the first space holds, and whether the others
// answer and write the same: on two spaces of one length they do, whatever the text is.
fn rate_by_all(task: &Task, first: &mut [u8], second: &mut [u8]) -> (Result<usize, Refusal>, bool)
    ensures rated { Rated 64 (min task.now.places 64) task.now.text.now (min task.now.room (length first.old)) (length first.old) result.0 first.new }
    ensures agree { length second.old ≡ length first.old → result.1 ≡ true }
{
    let mut work = [Label::<Fewest>::unreached(); MOST_JUNCTIONS];
    let answer = rate_by::<WarmEngine<Fewest>>(task, &mut work, first);
    let agree = others_agree(task, &answer, first, second);
    (answer, agree)
}

// Whether nothing was written there.
fn is_unwritten(space: &[u8]) -> bool
    ensures { result ≡ list_all (λ byte. byte == 126) space.now }
{
    space.iter().all(|byte| *byte == UNWRITTEN)
}

// Whether the sheet of a text comes out otherwise when it is written again: none does, whatever the text is.
fn sheet_differs(text: &[u8]) -> Result<bool, Refusal>
    ensures { result ≡ and_then (sheet_in 64 1 text.now) (λ _. Ok false) }
{
    let (table, taken) = read_sheet(text, MOST_JUNCTIONS)?;
    let mut space = [0u8; MOST_SHEET];
    match try_put_sheet(&mut space, &table) {
        Ok(length) => Ok(space[..length] != text[..taken]),
        Err(_) => Ok(true),
    }
}

// The page in full, or its length and its last line.
fn show_page(rt: &HostRuntime, mark: Mark, page: &[u8]) -> io::Result<()> {
    let mut output = rt.stdout();
    let length = page.len();
    if mark == Mark::Whole || length < TOTAL_BYTES {
        output.write_all(b"\n")?;
        return output.write_all(page);
    }
    print!(rt; "{length} bytes, ")?;
    output.write_all(&page[length - TOTAL_BYTES..length])
}

// A refusal's line, without the line feed.
fn show_refusal(rt: &HostRuntime, refusal: &Refusal) -> io::Result<()> {
    rt.stdout().write_all(&fail_line(refusal)[..FAIL_BYTES - 1])
}

// What the sheet alone says, if that is not the refusal of the whole text.
fn show_sheet(rt: &HostRuntime, text: &[u8], refusal: &Refusal) -> io::Result<()> {
    match read_sheet(text, MOST_JUNCTIONS) {
        Ok((_, taken)) => print!(rt; ", sheet of {taken} bytes"),
        Err(other) if other == *refusal => Ok(()),
        Err(other) => {
            print!(rt; ", sheet ")?;
            show_refusal(rt, &other)
        }
    }
}

// One case: the four engines, which must agree, and what they answer.
fn try_case(rt: &HostRuntime, case: &Case, first: &mut [u8], second: &mut [u8]) -> io::Result<()> {
    let mut output = rt.stdout();
    output.write_all(case.name)?;
    output.write_all(b": ")?;
    let length = length_of_page(case.text, first);
    let task = Task {
        text: case.text,
        places: case.mark.places(),
        room: case.mark.room(first.len(), length),
    };
    let (answer, agree) = rate_by_all(&task, first, second);
    if !agree {
        output.write_all(b"THE ENGINES DIFFER\n")?;
    }
    // an accepted text begins with a sheet
    if sheet_differs(case.text).unwrap_or(answer.is_ok()) {
        output.write_all(b"THE SHEET DIFFERS\n")?;
    }
    let written = answer.unwrap_or(0).min(first.len());
    let (page, rest) = first.split_at(written);
    if !is_unwritten(rest) {
        output.write_all(b"THE SPACE CHANGED\n")?;
    }
    match answer {
        Ok(_) => show_page(rt, case.mark, page),
        Err(refusal) => {
            show_refusal(rt, &refusal)?;
            show_sheet(rt, case.text, &refusal)?;
            output.write_all(b"\n")
        }
    }
}

fn main(rt: HostRuntime) -> io::Result<()> {
    let mut text = Vec::new(rt.alloc());
    rt.stdin().read_to_end(&mut text)?;
    let mut first = vec![in rt.alloc(); 0u8; MOST_PAGE]?;
    let mut second = vec![in rt.alloc(); 0u8; MOST_PAGE]?;
    for case in Cases::new(&text) {
        try_case(&rt, &case, &mut first, &mut second)?;
    }
    Ok(())
}
