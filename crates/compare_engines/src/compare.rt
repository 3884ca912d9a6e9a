ghost use Rattle.std.specs.Prelude.{◌≡◌, ◌≤◌, length, vec_capacity, MatchOption, None, IfOk, Decides};
ghost use Rattle.runs.specs.Agreements.{SameCalls};
ghost use Rattle.compare_engines.specs.Agreements.{AllAgree, EachAgrees, FirstDifference, FourAnswer, TellsEach, answered};
ghost use Rattle.compare_engines.specs.Scripts.{calls_of};

use crate::agree::agree;
use crate::copies::copy_calls;
use crate::four::{Four, Told};
use crate::script::Script;
use engines::cold::ColdEngine;
use engines::warm::WarmEngine;
use network::table::MOST_JUNCTIONS;
use paths::fewest::Fewest;
use paths::label::Label;
use paths::widest::Widest;
use runs::answer::Answer;
use runs::call::Call;
use runs::run::run_two;
use std::alloc::{AllocError, Global};

// What one engine is run with: a copy of a script's calls, and room for as many answers.
fn prepare<'a>(
    heap: Global,
    script: &Script<'a>,
) -> Result<(Vec<Call<'a>>, Vec<Answer>), AllocError>
    ensures same { IfOk result (λ made. SameCalls (calls_of script.now.entries.items) made.0.items) }
    ensures room { IfOk result (λ made. length made.0.items ≤ vec_capacity made.1) }
{
    let calls = copy_calls(heap, &script.entries)?;
    let answers = Vec::with_capacity(heap, calls.len())?;
    Ok((calls, answers))
}

// The calls of a script, carried out on a new engine of each kind. Two engines are given them at a time, a warm and a cold
// one over the same metric. All memory is got before the first call, so that each engine answers every call.
fn run_four(heap: Global, script: &Script) -> Result<Four, AllocError>
    ensures answers { IfOk result (FourAnswer (calls_of script.now.entries.items)) }
    ensures agree { IfOk result EachAgrees }
{
    let (first, mut warm_fewest) = prepare(heap, script)?;
    let (second, mut cold_fewest) = prepare(heap, script)?;
    let (third, mut warm_widest) = prepare(heap, script)?;
    let (fourth, mut cold_widest) = prepare(heap, script)?;
    let mut work = [Label::<Fewest>::unreached(); MOST_JUNCTIONS];
    let mut spare = [Label::<Fewest>::unreached(); MOST_JUNCTIONS];
    let (warm, cold) = run_two::<WarmEngine<Fewest>, ColdEngine<Fewest>>(
        first,
        &mut work,
        &mut warm_fewest,
        second,
        &mut spare,
        &mut cold_fewest,
    );
    warm.unwrap();
    cold.unwrap();
    let mut work = [Label::<Widest>::unreached(); MOST_JUNCTIONS];
    let mut spare = [Label::<Widest>::unreached(); MOST_JUNCTIONS];
    let (warm, cold) = run_two::<WarmEngine<Widest>, ColdEngine<Widest>>(
        third,
        &mut work,
        &mut warm_widest,
        fourth,
        &mut spare,
        &mut cold_widest,
    );
    warm.unwrap();
    cold.unwrap();
    Ok(Four {
        warm_fewest,
        warm_widest,
        cold_fewest,
        cold_widest,
    })
}

impl Four {
    // What they answered to a call, counted from 0, if all four answered it.
    pub(crate) fn told(&self, call: usize) -> Option<Told<'_>>
        ensures { MatchOption result (answered self.now ≤ call) (TellsEach self.now call) }
    {
        Some(Told {
            warm_fewest: self.warm_fewest.get(call)?,
            warm_widest: self.warm_widest.get(call)?,
            cold_fewest: self.cold_fewest.get(call)?,
            cold_widest: self.cold_widest.get(call)?,
        })
    }

    // The number, counted from 1, of the first call to which two of them gave answers that differ.
    fn difference(&self) -> Option<usize>
        ensures first { MatchOption result (EachAgrees self.now) (FirstDifference self.now) }
        ensures all { EachAgrees self.now → result ≡ None }
    {
        // By the call's number, since four lists are asked at once, and zips of four would be taken apart as pairs of pairs.
        for (call, _) in self.warm_fewest.iter().enumerate() {
            let Some(told) = self.told(call) else {
                return None;
            };
            if !told.agrees() {
                return Some(call + 1);
            }
        }
        None
    }
}

impl Told<'_> {
    fn agrees(&self) -> bool
        ensures { Decides result (AllAgree self.now.warm_fewest.now self.now.warm_widest.now self.now.cold_fewest.now self.now.cold_widest.now) }
    {
        agree(self.warm_fewest, self.warm_widest)
            && agree(self.warm_fewest, self.cold_fewest)
            && agree(self.warm_fewest, self.cold_widest)
    }
}

// What four new engines answer to the calls, each of them to every call, and the first difference between them: there is
// none, whatever the calls are.
pub(crate) fn compare(heap: Global, script: &Script) -> Result<(Four, Option<usize>), AllocError>
    ensures answers { IfOk result (λ told. FourAnswer (calls_of script.now.entries.items) told.0) }
    ensures agree { IfOk result (λ told. told.1 ≡ None) }
{
    let four = run_four(heap, script)?;
    let difference = four.difference();
    Ok((four, difference))
}
