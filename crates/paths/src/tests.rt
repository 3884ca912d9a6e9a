ghost use Rattle.std.specs.Prelude.{◌≡◌, ◌≤◌, Decides};
ghost use Rattle.paths.specs.Metrics.{Laws};
ghost use Rattle.paths.specs.Widths.{unbounded, width_means};
ghost use Rattle.paths.specs.Fews.{no_few, few, lengthened};
ghost use Rattle.paths.specs.WeightFirst.{IsWeightFirst};

use crate::fewest::Fewest;
use crate::label::Label;
use crate::search::best_path;
use crate::widest::Widest;
use network::row::Row;
use network::step::Direction;
use network::table::{MOST_LIMIT, MOST_PIPES, Table};
use network::valve::Valve;
use std::cmp::Reverse;
use std::test::Fail;

// A network without pipes. The engines' bare one has two junctions, and is of a crate above.
fn bare(junctions: usize) -> Table
    requires { (2 ≤ junctions) × (junctions ≤ 64) }
    ensures { result.junctions ≡ junctions }
{
    Table {
        junctions,
        pump: 0,
        outlet: 1,
        rows: [Row::UNUSED; MOST_PIPES],
        count: 0,
    }
}

// The table with this open pipe too; or as it was, where the pipe breaks a rule.
fn with(mut table: Table, from: usize, to: usize, limit: u32, flow: u32) -> Table
    ensures { result.junctions ≡ table.junctions }
{
    if table.count >= MOST_PIPES || from >= table.junctions || to >= table.junctions || from == to {
        return table;
    }
    if limit < 1 || limit > MOST_LIMIT || flow > limit {
        return table;
    }
    table.rows[table.count] = Row {
        from,
        to,
        limit,
        flow,
        valve: Valve::Open,
    };
    table.count += 1;
    table
}

// What labels hold before a search: no path is as good.
const TEMPTING: Label<Fewest> = Label {
    length: Fewest::Path {
        pipes: Reverse(0),
        least: Widest::Litres(0),
    },
    steps: 0,
    via: None,
};

#[test]
fn widest(rt: HostRuntime) -> Result<(), Fail> {
    let table = with(bare(4), 0, 1, 30, 5);
    let table = with(table, 0, 2, 20, 0);
    let table = with(table, 1, 2, 10, 0);
    let table = with(table, 1, 3, 25, 6);
    let table = with(table, 2, 3, 25, 0);
    let unused = Label {
        length: Widest::Litres(7),
        steps: 9,
        via: None,
    };
    let mut labels = [unused; 5];
    let Some(label) = best_path(&table, 0, 3, &mut labels) else {
        return Err(Fail::new("no path"));
    };
    assert_eq!(rt; label.length, Widest::Litres(20));
    assert_eq!(rt; labels[4].steps, 9);
    Ok(())
}

// A step against a pipe, where it carries something.
#[test]
fn fewest(rt: HostRuntime) -> Result<(), Fail> {
    let table = with(bare(4), 0, 1, 30, 30);
    let table = with(table, 2, 0, 20, 7);
    let table = with(table, 1, 2, 10, 0);
    let table = with(table, 1, 3, 25, 5);
    let table = with(table, 2, 3, 25, 0);
    let mut labels = [TEMPTING; 4];
    let Some(label) = best_path(&table, 0, 3, &mut labels) else {
        return Err(Fail::new("no path"));
    };
    let two_pipes = Fewest::Path {
        pipes: Reverse(2),
        least: Widest::Litres(7),
    };
    assert_eq!(rt; label.length, two_pipes);
    let Some(step) = labels[2].via else {
        return Err(Fail::new("no step into junction 2"));
    };
    assert_eq!(rt; step.pipe, 1);
    assert_eq!(rt; step.direction, Direction::Against);
    Ok(())
}

// The pipe out of junction 0 is full, and nothing leads back to junction 2.
#[test]
fn none() -> Result<(), Fail> {
    let table = with(with(bare(4), 0, 1, 30, 30), 2, 3, 20, 0);
    let mut labels = [TEMPTING; 4];
    match best_path(&table, 0, 3, &mut labels) {
        Some(_) => Err(Fail::new("a path")),
        None => Ok(()),
    }
}

// A tempting order that is no path metric: the greater smallest weight first, then fewer pipes.
#[derive(Clone, Copy, PartialEq, Eq, PartialOrd, Ord)]
struct Weighed {
    least: Widest,
    pipes: Reverse<u32>,
}

const NO_PIPE: Weighed = Weighed {
    least: Widest::Unbounded,
    pipes: Reverse(0),
};

fn weight_first(a: Weighed, b: Weighed) -> bool
    ensures decides { Decides result (IsWeightFirst (few a.pipes.0 (width_means a.least)) (few b.pipes.0 (width_means b.least))) }
    ensures breaks { Laws IsWeightFirst (few 0 unbounded) no_few lengthened → ⊥ }
{
    a >= b
}

fn extended(a: Weighed, weight: u32) -> Weighed {
    Weighed {
        least: a.least.min(Widest::Litres(weight)),
        pipes: Reverse(a.pipes.0.wrapping_add(1)),
    }
}

// It breaks law 4: two pipes of 10 are better than one of 5, but not after a pipe of 3.
#[test]
fn weight_first_breaks_law_4(rt: HostRuntime) {
    let two = extended(extended(NO_PIPE, 10), 10);
    let one = extended(NO_PIPE, 5);
    assert!(rt; weight_first(two, one));
    assert!(rt; !weight_first(extended(two, 3), extended(one, 3)));
}
