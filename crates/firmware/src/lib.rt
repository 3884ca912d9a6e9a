#![tactic(auto)]

ghost use Rattle.firmware.specs.Entry.{Rated};

use engines::warm::WarmEngine;
use interface::engine::Engine;
use network::table::MOST_JUNCTIONS;
use paths::fewest::Fewest;
use rating::page::rate;

// The entry for firmware: a text to rate, and the space for its page. It answers 0, or the number of the refusal:
// a number and no Result, since the entry in C (include/diljusk.h) hands it on as it is.
pub fn diljusk_rate(text: &[u8], page: &mut [u8]) -> u32
    ensures { Rated text.now page.old result page.new }
{
    let mut engine: WarmEngine<Fewest> = WarmEngine::new();
    let mut work = [WarmEngine::<Fewest>::place(); MOST_JUNCTIONS];
    match rate(&mut engine, text, &mut work, page) {
        Ok(_) => 0,
        Err(refusal) => refusal.number(),
    }
}
