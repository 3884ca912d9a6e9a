ghost use Rattle.std.specs.Prelude.{◌≡◌, ℕ, ◌≤◌, ◌↔◌, List, length, Some, Err};
ghost use Rattle.network.specs.Network.{Network, Sound};
ghost use Rattle.network.specs.Residual.{size};
ghost use Rattle.formats.specs.declared.refusal.Refusal.{Refusal};
ghost use Rattle.formats.specs.Schedules.{Timed};
ghost use Rattle.texts.specs.Conditions.{first_missed};
ghost use Rattle.texts.specs.Laws.{SoundSchedule};
ghost use Rattle.texts.specs.Texts.{text_in};
ghost use Rattle.rating.specs.Conditions.{page_conditions};
ghost use Rattle.rating.specs.Examples.{Examples};
ghost use Rattle.rating.specs.Fits.{NumbersFit};
ghost use Rattle.rating.specs.Pages.{page_of, page_length_of};
ghost use Rattle.rating.specs.Ratings.{rating};

// These functions do nothing: each stands for the theorem in its contract, so that no check passes without its proof.

// Every page has the length that its space is tested for.
pub fn page_lengths()
    ensures { (w : Network) (ss : List Timed) → length (page_of w ss) ≡ page_length_of (length ss) w.junctions (size w) }
{}

// A text and its page, worked out by the definitions.
pub fn example_page()
    ensures { Examples }
{}

// No number of a page is too long for its columns, so none is cut.
pub fn numbers_fit()
    ensures { (w : Network) (ss : List Timed) → Sound w → SoundSchedule (size w) ss → NumbersFit w ss }
{}

// A page call is refused exactly for the first condition that it misses.
pub fn refusals_in_order()
    ensures { (most places : ℕ) (text : List ℕ) (space : ℕ) (e : Refusal) → (rating most places text space ≡ Err e) ↔ (first_missed (page_conditions most places text space) ≡ Some e) }
{}

// A space for the longest page is enough for every text: a page call that has it judges the text alone.
pub fn space_enough()
    ensures { (most : ℕ) → most ≤ 64 → (text : List ℕ) → rating most most text 60519 ≡ text_in most text }
{}
