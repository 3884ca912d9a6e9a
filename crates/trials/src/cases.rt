ghost use Rattle.std.specs.Prelude.{◌≡◌, ◌-◌, ◌==◌, if◌then◌else◌, length, take, drop};
ghost use Rattle.trials.specs.Cuts.{cut_of};
ghost use Rattle.std.specs.Iterator.{at_most};
ghost use Rattle.trials.specs.declared.cases.Mark.TheVariants.{Whole, Cut, FewPlaces, LittleSpace, JustSpace, Plain};

use formats::lines::LINE_FEED;
use network::table::MOST_JUNCTIONS;

// What a case asks for beside its text.
#[derive(Clone, Copy, PartialEq, Eq)]
pub enum Mark {
    // `+`: the page is shown in full.
    Whole,
    // `-`: the text is taken without its last byte.
    Cut,
    // `w`: the workspace has one place too few.
    FewPlaces,
    // `<`: the space is one byte shorter than the page.
    LittleSpace,
    // `=`: the space is as long as the page.
    JustSpace,
    // Any other letter: nothing.
    Plain,
}

impl From<u8> for Mark {
    ghost from_gives = { λ letter mark.
        mark ≡ (if letter == 43 then Whole else
        (if letter == 45 then Cut else
        (if letter == 119 then FewPlaces else
        (if letter == 60 then LittleSpace else
        (if letter == 61 then JustSpace else Plain))))) };

    fn from(letter: u8) -> Mark {
        match letter {
            b'+' => Mark::Whole,
            b'-' => Mark::Cut,
            b'w' => Mark::FewPlaces,
            b'<' => Mark::LittleSpace,
            b'=' => Mark::JustSpace,
            _ => Mark::Plain,
        }
    }
}

impl Mark {
    // How many workspace places an engine is given.
    pub(crate) fn places(self) -> usize
        ensures { elim self [ FewPlaces ↦ result ≡ 63 | _ ↦ result ≡ 64 ] }
    {
        match self {
            Mark::FewPlaces => MOST_JUNCTIONS - 1,
            _ => MOST_JUNCTIONS,
        }
    }

    // How many bytes of a space an engine is given, where the page has so many.
    pub(crate) fn room(self, space: usize, page: usize) -> usize
        ensures { elim self [ LittleSpace ↦ result ≡ page - 1 | JustSpace ↦ result ≡ page | _ ↦ result ≡ space ] }
    {
        match self {
            Mark::LittleSpace => page.saturating_sub(1),
            Mark::JustSpace => page,
            _ => space,
        }
    }
}

// A case begins with a line `#`, a mark, a blank and its name: the text behind it is to be rated, up to the next line
// that begins with `#`.
#[derive(Clone, Copy)]
pub struct Case<'a> {
    pub mark: Mark,
    pub name: &'a [u8],
    pub text: &'a [u8],
}

// The cases of a text, up to the first line that begins none.
#[derive(Drop)]
pub struct Cases<'a> {
    rest: &'a [u8],
}

impl<'a> Cases<'a> {
    pub(crate) fn new(text: &'a [u8]) -> Cases<'a> {
        Cases { rest: text }
    }
}

// A text split behind the byte at a place, or at its end where there is no such byte.
fn split_behind<'a>(text: &'a [u8], place: Option<usize>) -> (&'a [u8], &'a [u8])
    ensures before { result.0.now ≡ take (cut_of text.now place) text.now }
    ensures behind { result.1.now ≡ drop (cut_of text.now place) text.now }
{
    match place {
        Some(place) if place < text.len() => text.split_at(place + 1),
        _ => text.split_at(text.len()),
    }
}

impl<'a> Iterator for Cases<'a> {
    type Item = Case<'a>;

    ghost remaining = { λ s. at_most (length s.rest.now) };

    fn next(&mut self) -> Option<Case<'a>> {
        // a case ends behind the line feed before the next `#`
        let end = self.rest.windows(2).position(|pair| matches!(pair, b"\n#"));
        let (case, rest) = split_behind(self.rest, end);
        let feed = case.iter().position(|byte| *byte == LINE_FEED);
        let (head, body) = split_behind(case, feed);
        let [_, letter, _, name @ .., _] = head else {
            return None;
        };
        self.rest = rest;
        let mark = Mark::from(*letter);
        let text = match body {
            [text @ .., _] if mark == Mark::Cut => text,
            _ => body,
        };
        Some(Case { mark, name, text })
    }
}
