ghost use Rattle.std.specs.Prelude.{◌≡◌, ◌≤◌, length};
ghost use Rattle.compare_engines.specs.Agreements.{answered, count_in};

use crate::four::{Four, Told};
use crate::script::Script;
use formats::fields::COUNT_COLUMNS;
use formats::reader::Line;
use formats::refusal::Refusal;
use network::report::Report;
use network::table::MOST_JUNCTIONS;
use runs::answer::Answer;
use std::io;
use std::io::Write;
use writing::page::{RATE_BYTES, fail_line, put_rate};

// A RATE line of 64 junctions.
const MOST_RATE: usize = RATE_BYTES + MOST_JUNCTIONS;

// Its letters follow all its other bytes but the line feed.
const LETTERS_START: usize = RATE_BYTES - 1;

// A new engine means a network of two junctions.
const FEWEST_JUNCTIONS: usize = 2;

pub(crate) fn show_refusal(rt: &HostRuntime, refusal: &Refusal) -> io::Result<()> {
    rt.stdout().write_all(&fail_line(refusal))
}

impl<'a> Told<'a> {
    // Each answer with the words for its engine, in the order in which they are shown.
    fn each(&self) -> [(&'static str, &'a Answer); 4] {
        [
            ("warm fewest", self.warm_fewest),
            ("warm widest", self.warm_widest),
            ("cold fewest", self.cold_fewest),
            ("cold widest", self.cold_widest),
        ]
    }
}

// The number of augmentations in an answer that has one.
fn augmentations(answer: &Answer) -> Option<u32>
    ensures { result ≡ count_in answer.now }
{
    match answer {
        Answer::Changed { augmentations, .. } => Some(*augmentations),
        _ => None,
    }
}

// A change with its sign, and the numbers of augmentations, which may differ. The answers agree, so that each has a number.
// By one write, since a script may have very many changes. `{change:+}` would write a plus before 0 too.
fn show_change(rt: &HostRuntime, change: i64, told: &Told) -> io::Result<()> {
    let sign = if change > 0 { "+" } else { "" };
    let a = augmentations(told.warm_fewest).unwrap_or(0);
    let b = augmentations(told.warm_widest).unwrap_or(0);
    let c = augmentations(told.cold_fewest).unwrap_or(0);
    let d = augmentations(told.cold_widest).unwrap_or(0);
    println!(rt; "changed {sign}{change}, augmentations {a} {b} {c} {d}")
}

// The value, and a letter for each junction as in a page.
fn show_report(rt: &HostRuntime, report: &Report, junctions: usize) -> io::Result<()>
    requires { junctions ≤ 64 }
{
    let mut line = [0u8; MOST_RATE];
    put_rate(&mut line, 0, 0, report, junctions);
    let value = report.value;
    print!(rt; "value {value} ")?;
    rt.stdout()
        .write_all(&line[LETTERS_START..LETTERS_START + junctions])?;
    println!(rt; "")
}

// A sheet, as it was written over the front of a space.
fn show_sheet(rt: &HostRuntime, length: usize, space: &[u8]) -> io::Result<()> {
    println!(rt; "sheet of {length} bytes")?;
    if length > space.len() {
        return Ok(());
    }
    rt.stdout().write_all(&space[0..length])
}

fn show_flow(rt: &HostRuntime, name: &str, answer: &Answer) -> io::Result<()> {
    print!(rt; "     {name}:")?;
    if let Answer::Flow { pipes, row } = answer {
        for litres in row.iter().take(*pipes) {
            print!(rt; " {litres}")?;
        }
    }
    println!(rt; "")
}

// The kept flows, which may differ.
fn show_flows(rt: &HostRuntime, pipes: usize, told: &Told) -> io::Result<()> {
    println!(rt; "flow of {pipes} pipes")?;
    for (name, answer) in told.each() {
        show_flow(rt, name, answer)?;
    }
    Ok(())
}

// An answer in words. The engines' answers agree, so that the first one's will do for all that is not shown of each.
// No Display of an answer says this: two kinds of answers are shown with what all four engines gave, and a report with
// as many letters as its sheet has junctions.
fn show_answer(rt: &HostRuntime, told: &Told, junctions: usize) -> io::Result<()>
    requires { junctions ≤ 64 }
{
    match told.warm_fewest {
        Answer::Loaded(length) => println!(rt; "loaded {length} bytes"),
        Answer::Changed { change, .. } => show_change(rt, *change, told),
        Answer::Reported(report) => show_report(rt, report, junctions),
        Answer::Governs(true) => println!(rt; "governs"),
        Answer::Governs(false) => println!(rt; "does not govern"),
        Answer::Sheet { length, space } => show_sheet(rt, *length, space),
        Answer::Flow { pipes, .. } => show_flows(rt, *pipes, told),
        Answer::Refused(refusal)
        | Answer::SheetRefused { refusal, .. }
        | Answer::FlowRefused { refusal, .. } => {
            let number = refusal.number();
            let line = refusal.line();
            println!(rt; "refused {number}, line {line}")
        }
    }
}

// How many junctions the first line of a sheet speaks of.
fn junctions_in(line: &Line) -> usize
    ensures { result ≤ 64 }
{
    if line.bytes.len() < COUNT_COLUMNS {
        return FEWEST_JUNCTIONS;
    }
    line.field(0, FEWEST_JUNCTIONS, MOST_JUNCTIONS)
        .unwrap_or(FEWEST_JUNCTIONS)
}

fn show_call(rt: &HostRuntime, number: usize, line: &Line) -> io::Result<()> {
    print!(rt; "{number:>4} ")?;
    rt.stdout().write_all(line.bytes)?;
    print!(rt; ": ")
}

// Each call with its answer, in order.
pub(crate) fn show_calls(rt: &HostRuntime, script: &Script, four: &Four) -> io::Result<()>
    requires { length script.now.entries.items ≤ answered four.now }
{
    println!(rt; "augmentations: warm fewest, warm widest, cold fewest, cold widest")?;
    let mut junctions = FEWEST_JUNCTIONS;
    for (k, entry) in script.entries.iter().enumerate() {
        let told = four.told(k).unwrap();
        if let Answer::Loaded(_) = told.warm_fewest {
            junctions = junctions_in(&entry.line);
        }
        show_call(rt, k + 1, &entry.line)?;
        show_answer(rt, &told, junctions)?;
    }
    Ok(())
}
