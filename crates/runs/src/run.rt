ghost use Rattle.std.specs.Prelude.{◌≡◌, ◌<◌, ◌≤◌, min, [], length, vec_capacity, OnErr, OnOk, IsOk};
ghost use Rattle.runs.specs.Agreements.{SameCalls, AnswersAgree};
ghost use Rattle.runs.specs.declared.answer.Answer.TheVariants.{Changed};
ghost use Rattle.runs.specs.Runs.{Answers, Begun};
ghost use Rattle.runs.specs.Statements.{EqualReports, Faithful};

use crate::answer::Answer;
use crate::call::{Call, Request};
use interface::engine::{Engine, FlowEngine};
use std::alloc::AllocError;

// A change of the greatest value, with the number of augmentations.
fn changed(done: (i64, u32)) -> Answer
    ensures { result ≡ Changed done.0 done.1 }
{
    let (change, augmentations) = done;
    Answer::Changed {
        change,
        augmentations,
    }
}

// The clauses below name the engine's members one by one, since `Works` of the interface takes them so, and a record of them
// would be spelled with all of them in each clause.

// One request, given the whole workspace. It is data, matched here alone: a closure in its place could not be copied for
// another engine, nor could a contract say what was asked.
fn ask<E: FlowEngine>(engine: &mut E, request: Request, work: &mut [E::Place]) -> Answer
    ensures { Answers E.Engine.MOST_JUNCTIONS E.FlowEngine.manner E.Metric.PathMetric.good E.Metric.PathMetric.start E.Metric.PathMetric.extended (length work.old)
        (E.Engine.meaning engine.old) (E.FlowEngine.kept engine.old) request.entry result (E.Engine.meaning engine.new) (E.FlowEngine.kept engine.new) }
{
    match request {
        Request::Load(text) => {
            let told = engine.load(text, work);
            told.map_or_else(Answer::Refused, Answer::Loaded)
        }
        Request::Open(pipe) => {
            let told = engine.open(pipe, work);
            told.map_or_else(Answer::Refused, changed)
        }
        Request::Close(pipe) => {
            let told = engine.close(pipe, work);
            told.map_or_else(Answer::Refused, changed)
        }
        Request::Limit { pipe, limit } => {
            let told = engine.limit(pipe, limit, work);
            told.map_or_else(Answer::Refused, changed)
        }
        Request::Pattern(letters) => {
            let told = engine.pattern(letters, work);
            told.map_or_else(Answer::Refused, changed)
        }
        Request::Report => {
            let told = engine.report(work);
            told.map_or_else(Answer::Refused, Answer::Reported)
        }
        Request::Governing(pipe) => {
            let told = engine.governing(pipe, work);
            told.map_or_else(Answer::Refused, Answer::Governs)
        }
        // Both answers of the last two take the memory that the call came with, so that two closures could not hold it.
        Request::WriteSheet(mut space) => match engine.write_sheet(&mut space) {
            Ok(length) => Answer::Sheet { length, space },
            Err(refusal) => Answer::SheetRefused { refusal, space },
        },
        Request::ReadFlow(mut row) => match engine.read_flow(&mut row) {
            Ok(pipes) => Answer::Flow { pipes, row },
            Err(refusal) => Answer::FlowRefused { refusal, row },
        },
    }
}

// One call, given the places that it asks for, or all that there are. Engine and workspace are two parameters throughout:
// each call is given another part of the workspace, so that a struct of the two would be made anew for each. The calls stay
// beside them too: a struct of calls and workspace would be taken apart again at the first loop.
fn answer_call<E: FlowEngine>(engine: &mut E, call: Call, work: &mut [E::Place]) -> Answer
    ensures { Answers E.Engine.MOST_JUNCTIONS E.FlowEngine.manner E.Metric.PathMetric.good E.Metric.PathMetric.start E.Metric.PathMetric.extended (min call.entry.places (length work.old))
        (E.Engine.meaning engine.old) (E.FlowEngine.kept engine.old) call.entry.request result (E.Engine.meaning engine.new) (E.FlowEngine.kept engine.new) }
{
    let places = call.places.min(work.len());
    ask(engine, call.request, &mut work[0..places])
}

// The calls one after the other, until there is no room for an answer.
fn answer_calls<E: FlowEngine>(
    engine: &mut E,
    calls: Vec<Call>,
    work: &mut [E::Place],
    answers: &mut Vec<Answer>,
) -> Result<(), AllocError>
    requires { answers.old.items ≡ [] }
    ensures begun { Begun E.Engine.MOST_JUNCTIONS E.FlowEngine.manner E.Metric.PathMetric.good E.Metric.PathMetric.start E.Metric.PathMetric.extended (length work.old)
        (E.Engine.meaning engine.old) (E.FlowEngine.kept engine.old) calls.entry.items answers.new.items }
    ensures whole { OnOk result (length answers.new.items ≡ length calls.entry.items) }
    ensures short { OnErr result (length answers.new.items < length calls.entry.items) }
    ensures room { length calls.entry.items ≤ vec_capacity answers.old → IsOk result }
{
    for call in calls {
        let answer = answer_call(engine, call, work);
        answers.push(answer)?;
    }
    Ok(())
}

// Calls on a new engine, each given the places that it asks for, or the whole workspace. The answers take the place of
// what the vector holds. They are told of as many calls as there are answers: of all calls where the run ends well, as it
// does wherever the vector has room for as many answers. Else it ends for want of memory, at the first answer without room.
pub fn run<E: FlowEngine + Drop>(
    calls: Vec<Call>,
    work: &mut [E::Place],
    answers: &mut Vec<Answer>,
) -> Result<(), AllocError>
    ensures faithful { Faithful E.Engine.MOST_JUNCTIONS E.FlowEngine.manner E.Metric.PathMetric.good E.Metric.PathMetric.start E.Metric.PathMetric.extended (length work.old)
        calls.entry.items answers.new.items }
    ensures whole { OnOk result (length answers.new.items ≡ length calls.entry.items) }
    ensures short { OnErr result (length answers.new.items < length calls.entry.items) }
    ensures room { length calls.entry.items ≤ vec_capacity answers.old → IsOk result }
{
    answers.clear();
    let mut engine = E::new();
    answer_calls(&mut engine, calls, work, answers)
}

// Two runs, on two new engines of one kind or of two. Each is as `run` says. Where they are asked the same, with as
// large workspaces and bounds, their answers agree.
pub fn run_two<E: FlowEngine + Drop, F: FlowEngine + Drop>(
    calls: Vec<Call>,
    work: &mut [E::Place],
    answers: &mut Vec<Answer>,
    others: Vec<Call>,
    spare: &mut [F::Place],
    other_answers: &mut Vec<Answer>,
) -> (Result<(), AllocError>, Result<(), AllocError>)
    ensures one { Faithful E.Engine.MOST_JUNCTIONS E.FlowEngine.manner E.Metric.PathMetric.good E.Metric.PathMetric.start E.Metric.PathMetric.extended (length work.old)
        calls.entry.items answers.new.items }
    ensures other { Faithful F.Engine.MOST_JUNCTIONS F.FlowEngine.manner F.Metric.PathMetric.good F.Metric.PathMetric.start F.Metric.PathMetric.extended (length spare.old)
        others.entry.items other_answers.new.items }
    ensures equal { EqualReports E.Engine.MOST_JUNCTIONS (length work.old) calls.entry.items answers.new.items
        F.Engine.MOST_JUNCTIONS (length spare.old) others.entry.items other_answers.new.items }
    ensures agree { E.Engine.MOST_JUNCTIONS ≡ F.Engine.MOST_JUNCTIONS → length work.old ≡ length spare.old → SameCalls calls.entry.items others.entry.items
        → AnswersAgree answers.new.items other_answers.new.items }
    ensures whole { OnOk result.0 (length answers.new.items ≡ length calls.entry.items) }
    ensures other_whole { OnOk result.1 (length other_answers.new.items ≡ length others.entry.items) }
    ensures short { OnErr result.0 (length answers.new.items < length calls.entry.items) }
    ensures other_short { OnErr result.1 (length other_answers.new.items < length others.entry.items) }
    ensures room { length calls.entry.items ≤ vec_capacity answers.old → IsOk result.0 }
    ensures other_room { length others.entry.items ≤ vec_capacity other_answers.old → IsOk result.1 }
{
    let one = run::<E>(calls, work, answers);
    let other = run::<F>(others, spare, other_answers);
    (one, other)
}
