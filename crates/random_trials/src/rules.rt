ghost use Rattle.std.specs.Prelude.{◌≡◌, vec_len};
ghost use Rattle.std.specs.List.{list_all};
ghost use Rattle.random_trials.specs.Rules.{is_letter, due_of_space, due_of_pipe, due_of_valve, due_of_limit, due_of_pattern, due_of};

use crate::plan::{GREATEST_LIMIT, Link, Plan};
use crate::request::Request;
use formats::refusal::Refusal;
use network::table::MOST_JUNCTIONS;
use network::valve::Valve;

// Whether each letter of a pattern means something.
fn all_letters(letters: &[u8]) -> bool
    ensures { result ≡ list_all is_letter letters.now }
{
    letters
        .iter()
        .all(|letter| matches!(*letter, b'O' | b'C' | b'='))
}

fn due_space(space: usize, needed: usize) -> Result<(), Refusal>
    ensures { result ≡ due_of_space space needed }
{
    if space < needed {
        Err(Refusal::LittleSpace)
    } else {
        Ok(())
    }
}

// How each request must be answered, by the rules as they are told here a second time: carried out, or refused for a reason.
// A call without text concerns no line: the rules have 0 there.
impl Plan {
    fn due_pipe(&self, pipe: usize) -> Result<Link, Refusal>
        ensures { result ≡ due_of_pipe self.now.links.items pipe }
    {
        self.links.get(pipe).copied().ok_or(Refusal::NoSuchPipe)
    }

    fn due_valve(&self, pipe: usize, valve: Valve) -> Result<(), Refusal>
        ensures { result ≡ due_of_valve self.now.links.items pipe valve }
    {
        let link = self.due_pipe(pipe)?;
        match (link.valve, valve) {
            (Valve::Open, Valve::Open) => Err(Refusal::AlreadyOpen),
            (Valve::Closed, Valve::Closed) => Err(Refusal::AlreadyClosed),
            _ => Ok(()),
        }
    }

    fn due_limit(&self, pipe: usize, limit: u32) -> Result<(), Refusal>
        ensures { result ≡ due_of_limit self.now.links.items pipe limit }
    {
        self.due_pipe(pipe)?;
        if limit < 1 || limit > GREATEST_LIMIT {
            Err(Refusal::OutOfRange(0))
        } else {
            Ok(())
        }
    }

    fn due_pattern(&self, letters: &[u8]) -> Result<(), Refusal>
        ensures { result ≡ due_of_pattern (vec_len self.now.links) letters.now }
    {
        if letters.len() != self.links.len() {
            return Err(Refusal::BadLine(0));
        }
        if all_letters(letters) {
            Ok(())
        } else {
            Err(Refusal::WrongLetter(0))
        }
    }

    pub fn due(&self, request: &Request, places: usize) -> Result<(), Refusal>
        ensures { result ≡ due_of request.now self.now places }
    {
        match request {
            Request::WriteSheet(space) => due_space(*space, self.sheet.len()),
            Request::ReadFlow(row) => due_space(*row, self.links.len()),
            _ if places < MOST_JUNCTIONS => Err(Refusal::FewPlaces),
            Request::Load(damage) => Err(damage.refusal),
            Request::Open(pipe) => self.due_valve(*pipe, Valve::Open),
            Request::Close(pipe) => self.due_valve(*pipe, Valve::Closed),
            Request::Limit(pipe, limit) => self.due_limit(*pipe, *limit),
            Request::Pattern(letters) => self.due_pattern(letters),
            Request::Report => Ok(()),
            Request::Governing(pipe) => {
                self.due_pipe(*pipe)?;
                Ok(())
            }
        }
    }

    // What a request changes where it is not refused.
    pub fn apply(&mut self, request: &Request) {
        match request {
            Request::Open(pipe) => self.set_valve(*pipe, Valve::Open),
            Request::Close(pipe) => self.set_valve(*pipe, Valve::Closed),
            Request::Limit(pipe, limit) => self.set_limit(*pipe, *limit),
            Request::Pattern(letters) => self.set_valves(letters),
            _ => {}
        }
    }
}
