ghost use Rattle.std.specs.Prelude.{◌≡◌, List, length, Ok, Err};
ghost use Rattle.network.specs.Network.{Network};
ghost use Rattle.formats.specs.Schedules.{Timed};
ghost use Rattle.formats.specs.Spaces.{put_at};
ghost use Rattle.texts.specs.Texts.{text_in};
ghost use Rattle.rating.specs.Pages.{page_of};

use engines::warm::WarmEngine;
use formats::refusal::Refusal;
use interface::engine::Engine;
use network::table::MOST_JUNCTIONS;
use paths::fewest::Fewest;
use rating::page::rate;

// Writes the page of a text to the front of a space for the longest page, and answers its length; or the text has none.
pub(crate) fn rate_text(text: &[u8], space: &mut [u8]) -> Result<usize, Refusal>
    requires { length space.old ≡ 60519 }
    ensures { elim result [
      | Ok n ↦ (w : Network) × (ss : List Timed) × (text_in 64 text.now ≡ Ok (w, ss)) × (n ≡ length (page_of w ss)) × (space.new ≡ put_at 0 (page_of w ss) space.old)
      | Err e ↦ (text_in 64 text.now ≡ Err e) × (space.new ≡ space.old)
    ] }
{
    let mut engine: WarmEngine<Fewest> = WarmEngine::new();
    let mut work = [WarmEngine::<Fewest>::place(); MOST_JUNCTIONS];
    rate(&mut engine, text, &mut work, space)
}
