#![tactic(auto)]

mod draws;
mod flows;
mod plan;
mod random;
mod request;
mod rules;
mod shapes;
mod tally;
mod trial;

use engines::cold::ColdEngine;
use engines::warm::WarmEngine;
use interface::engine::Engine;
use network::table::MOST_JUNCTIONS;
use paths::fewest::Fewest;
use paths::label::Label;
use paths::metric::PathMetric;
use paths::widest::Widest;
use random::Random;
use std::alloc::{AllocError, Global};
use std::collections::BTreeMap;
use std::io;
use tally::{Log, Tally};
use trial::{MORE, Trial};

const SEED: u64 = 20_260_417;

const NETWORKS: usize = 400;

const CALLS: usize = 24;

// The warm and the cold engine of a metric, which must agree with each other and with the reports that are there.
#[derive(Drop)]
struct Pair<M: PathMetric> {
    warm: Trial<WarmEngine<M>>,
    cold: Trial<ColdEngine<M>>,
}

impl<M: PathMetric> Pair<M> {
    fn new(heap: Global) -> Result<Pair<M>, AllocError> {
        let warm = vec![in heap; Label::<M>::unreached(); MOST_JUNCTIONS + MORE]?;
        let cold = vec![in heap; Label::<M>::unreached(); MOST_JUNCTIONS + MORE]?;
        Ok(Pair {
            warm: Trial::new(heap, warm)?,
            cold: Trial::new(heap, cold)?,
        })
    }

    fn run(&mut self, heap: Global, seed: Random, log: &mut Log) -> Result<(), AllocError> {
        self.warm.run(heap, seed, CALLS, log)?;
        self.cold.run(heap, seed, CALLS, log)
    }

    fn tally(&self) -> Tally {
        let mut sum = self.warm.tally();
        sum += self.cold.tally();
        sum
    }

    fn show_augmentations(&self, rt: &HostRuntime, paths: &str) -> io::Result<()> {
        let warm = self.warm.tally().augmentations;
        let cold = self.cold.tally().augmentations;
        println!(rt; "augmentations by {paths}: {warm} warm, {cold} cold")
    }
}

// All networks, on the four engines.
fn run_all(
    heap: Global,
    fewest: &mut Pair<Fewest>,
    widest: &mut Pair<Widest>,
    log: &mut Log,
) -> Result<(), AllocError> {
    let mut random = Random { state: SEED };
    for _ in 0..NETWORKS {
        let state = random.draw();
        let seed = Random { state };
        log.reports.clear();
        fewest.run(heap, seed, log)?;
        widest.run(heap, seed, log)?;
    }
    Ok(())
}

fn show_log(rt: &HostRuntime, log: &Log) -> io::Result<()> {
    let accepted = log.accepted;
    println!(rt; "{NETWORKS} networks, {CALLS} calls on each\n{accepted} carried out")?;
    for (number, times) in log.refused.iter() {
        println!(rt; "{times} refused by {number}")?;
    }
    Ok(())
}

fn main(rt: HostRuntime) -> io::Result<()> {
    let heap = rt.alloc();
    let mut fewest = Pair::<Fewest>::new(heap)?;
    let mut widest = Pair::<Widest>::new(heap)?;
    let mut log = Log {
        accepted: 0,
        refused: BTreeMap::new(heap),
        reports: Vec::new(heap),
    };
    run_all(heap, &mut fewest, &mut widest, &mut log)?;
    show_log(&rt, &log)?;
    let mut tally = fewest.tally();
    tally += widest.tally();
    let Tally {
        checks,
        failures,
        ..
    } = tally;
    println!(rt; "{checks} checks, {failures} failures")?;
    fewest.show_augmentations(&rt, "fewest pipes")?;
    widest.show_augmentations(&rt, "widest paths")
}
