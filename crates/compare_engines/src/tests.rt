use crate::scripts::read_script;
use crate::stop::Stop;
use engines::cold::ColdEngine;
use engines::warm::WarmEngine;
use formats::refusal::Refusal;
use network::table::MOST_JUNCTIONS;
use paths::fewest::Fewest;
use paths::label::Label;
use runs::answer::Answer;
use runs::call::{Call, Request};
use runs::run::{run, run_two};
use std::test::Fail;

fn refusal_of(rt: &HostRuntime, text: &[u8]) -> Result<Refusal, Fail> {
    match read_script(rt.alloc(), text, &[], &[]) {
        Err(Stop::Unread(refusal)) => Ok(refusal),
        Err(Stop::Memory) => Err(Fail::new("no memory")),
        Ok(_) => Err(Fail::new("it was read")),
    }
}

#[test]
fn unreadable_lines(rt: HostRuntime) -> Result<(), Fail> {
    assert_eq!(rt; refusal_of(&rt, b"REPT\nREPT")?, Refusal::BadLine(2));
    assert_eq!(rt; refusal_of(&rt, b"REPT\nrept\n")?, Refusal::WrongKind(2));
    assert_eq!(rt; refusal_of(&rt, b"OPEN   1x\n")?, Refusal::BadNumber(1));
    assert_eq!(rt;
        refusal_of(&rt, b"FLOW\nNETW    2    0    0   1\n")?,
        Refusal::BadLine(2)
    );
    Ok(())
}

#[test]
fn places_reach_the_call(rt: HostRuntime) -> Result<(), Fail> {
    let Ok(script) = read_script(rt.alloc(), b"PLAC   63\nREPT\n", &[], &[]) else {
        return Err(Fail::new("it was not read"));
    };
    let Some(entry) = script.entries.first() else {
        return Err(Fail::new("no call"));
    };
    assert_eq!(rt; entry.call.places, 63);
    assert_eq!(rt; entry.line.number, 2);
    Ok(())
}

// A call to write the sheet, which asks for no workspace place.
fn writing(space: Vec<u8>) -> Call<'static> {
    Call {
        request: Request::WriteSheet(space),
        places: 0,
    }
}

// Two lists that differ. The bare network's sheet has 25 bytes: one engine is given a byte less, the other a byte more.
#[test]
fn two_lists_of_calls(rt: HostRuntime) -> Result<(), Fail> {
    let mut short = Vec::new(rt.alloc());
    let space = vec![in rt.alloc(); 7u8; 24].expect(&rt, "memory");
    short.push(writing(space)).expect(&rt, "memory");
    let mut long = Vec::new(rt.alloc());
    let report = Call {
        request: Request::Report,
        places: MOST_JUNCTIONS,
    };
    long.push(report).expect(&rt, "memory");
    let space = vec![in rt.alloc(); 7u8; 26].expect(&rt, "memory");
    long.push(writing(space)).expect(&rt, "memory");
    let mut answers = Vec::with_capacity(rt.alloc(), 1).expect(&rt, "memory");
    let mut others = Vec::with_capacity(rt.alloc(), 2).expect(&rt, "memory");
    let mut work = [Label::<Fewest>::unreached(); MOST_JUNCTIONS];
    let mut spare = [Label::<Fewest>::unreached(); MOST_JUNCTIONS];
    let (one, other) = run_two::<WarmEngine<Fewest>, ColdEngine<Fewest>>(
        short,
        &mut work,
        &mut answers,
        long,
        &mut spare,
        &mut others,
    );
    assert!(rt; one.is_ok() && other.is_ok());
    let Some(Answer::SheetRefused { refusal, space }) = answers.first() else {
        return Err(Fail::new("the short space was taken"));
    };
    assert_eq!(rt; refusal.number(), 9);
    assert!(rt; space.len() == 24 && space.iter().all(|byte| *byte == 7));
    let Some(Answer::Sheet { length, space }) = others.get(1) else {
        return Err(Fail::new("the other space was refused"));
    };
    assert_eq!(rt; *length, 25);
    assert_eq!(rt; space.len(), 26);
    Ok(())
}

// A network of one pipe, whose flow is asked into a row of none.
#[test]
fn row_too_short(rt: HostRuntime) -> Result<(), Fail> {
    let load = Call {
        request: Request::Load(b"NETW    2    1    0    1\nPIPE    0    1    5    O\n"),
        places: MOST_JUNCTIONS,
    };
    let reading = Call {
        request: Request::ReadFlow(Vec::new(rt.alloc())),
        places: 0,
    };
    let mut calls = Vec::new(rt.alloc());
    calls.push(load).expect(&rt, "memory");
    calls.push(reading).expect(&rt, "memory");
    let mut answers = Vec::with_capacity(rt.alloc(), 2).expect(&rt, "memory");
    let mut work = [Label::<Fewest>::unreached(); MOST_JUNCTIONS];
    let done = run::<WarmEngine<Fewest>>(calls, &mut work, &mut answers);
    assert!(rt; done.is_ok());
    let Some(Answer::FlowRefused { refusal, row }) = answers.get(1) else {
        return Err(Fail::new("the row was taken"));
    };
    assert_eq!(rt; refusal.number(), 9);
    assert_eq!(rt; row.len(), 0);
    Ok(())
}
