ghost use Rattle.std.specs.Prelude.{◌≡◌, ◌+◌, ◌<◌, ◌≤◌, true, [], ◌∷◌, ◌++◌, length, drop, Ok, Err, OnOk};
ghost use Rattle.formats.specs.Lines.{ended, first_line};
ghost use Rattle.formats.specs.Readers.{rest, Advanced};
ghost use Rattle.compare_engines.specs.Orders.{pipe_follows_in};
ghost use Rattle.compare_engines.specs.Scripts.{line_in, behind_pipes, behind, entered, Adds, Extends, Stops, Says, Breaks};

use crate::entry::Entry;
use crate::order::Order;
use crate::orders::read_order;
use crate::script::Script;
use crate::source::Source;
use crate::stop::Stop;
use formats::fields::{COUNT_COLUMNS, KIND_COLUMNS, is_kind};
use formats::reader::{Line, Reader};
use formats::refusal::Refusal;
use network::table::MOST_JUNCTIONS;
use runs::call::{Call, Request};
use std::alloc::{AllocError, Global};

// What stands behind so many columns of a line.
fn behind_columns<'a>(line: &Line<'a>, columns: usize) -> &'a [u8]
    ensures { result.now ≡ drop columns line.now.bytes.now }
{
    let start = columns.min(line.bytes.len());
    &line.bytes[start..]
}

// Whether the bytes that follow begin with the kind word of a pipe.
fn pipe_follows(reader: &Reader) -> bool
    ensures { result ≡ pipe_follows_in (rest reader.now) }
{
    is_kind(&reader.text[reader.at..], b"PIPE")
}

// Passes the PIPE lines that follow, up to so many. It counts lines that the reader gives, and no places of a slice.
fn skip_pipes(reader: &mut Reader, most: usize)
    ensures moved { (reader.new.lines, rest reader.new) ≡ behind_pipes most reader.old.lines (rest reader.old) }
    ensures same_text { reader.new.text.now ≡ reader.old.text.now }
{
    for passed in 0..most {
        if !pipe_follows(reader) {
            return;
        }
        let Some(_) = reader.next_line() else {
            return;
        };
    }
}

// Goes on behind the line of an order: the PIPE lines of a sheet belong to it.
fn go_on(reader: &mut Reader, order: Order)
    ensures moved { (reader.new.lines, rest reader.new) ≡ behind order reader.old.lines (rest reader.old) }
    ensures same_text { reader.new.text.now ≡ reader.old.text.now }
{
    if let Order::Sheet(most) = order {
        skip_pipes(reader, most);
    }
}

// The next line, and what it asks for.
fn next_order<'a>(reader: &mut Reader<'a>) -> Result<(Order, Line<'a>), Refusal>
    ensures { elim result [
      | Ok p ↦ (line_in (reader.old.lines + 1) (rest reader.old) ≡ Ok p.0)
          × (ended (rest reader.old) ≡ true)
          × (p.1.bytes.now ≡ first_line (rest reader.old))
          × (p.1.number ≡ reader.old.lines + 1)
          × Advanced reader.old reader.new
      | Err e ↦ line_in (reader.old.lines + 1) (rest reader.old) ≡ Err e
    ] }
{
    let number = reader.lines + 1;
    let Some(line) = reader.next_line() else {
        return Err(Refusal::BadLine(number));
    };
    let order = read_order(&line)?;
    Ok((order, line))
}

impl<'a> Script<'a> {
    // One call more, with the places that stand now.
    fn add(&mut self, request: Request<'a>, line: Line<'a>) -> Result<(), AllocError>
        ensures entries { OnOk result (self.new.entries.items ≡ self.old.entries.items ++ entered self.old.places line.entry request.entry ∷ []) }
        ensures places { self.new.places ≡ self.old.places }
    {
        let places = self.places;
        let call = Call { request, places };
        self.entries.push(Entry { call, line })?;
        Ok(())
    }

    // The calls that an order makes: a table of the orders, which a closure or an impl for each would only spread.
    fn obey(&mut self, heap: Global, order: Order, source: Source<'a>) -> Result<(), AllocError>
        ensures { OnOk result (Adds source.entry.text.now source.entry.space.now source.entry.row.now source.entry.line order self.old self.new) }
    {
        let line = source.line;
        match order {
            Order::Sheet(_) => self.add(Request::Load(source.text), line),
            Order::Open(pipe) => self.add(Request::Open(pipe), line),
            Order::Close(pipe) => self.add(Request::Close(pipe), line),
            Order::Limit(pipe, limit) => self.add(Request::Limit { pipe, limit }, line),
            Order::Pattern => self.add(Request::Pattern(behind_columns(&line, KIND_COLUMNS)), line),
            Order::Report => self.add(Request::Report, line),
            Order::Governing(pipe) => self.add(Request::Governing(pipe), line),
            Order::WriteSheet => {
                let space = source.space.to_vec(heap)?;
                self.add(Request::WriteSheet(space), line)
            }
            Order::ReadFlow => {
                let row = source.row.to_vec(heap)?;
                self.add(Request::ReadFlow(row), line)
            }
            Order::Places(places) => {
                self.places = places;
                Ok(())
            }
            Order::Schedule => Ok(()),
            Order::Step => {
                self.add(Request::Pattern(behind_columns(&line, COUNT_COLUMNS)), line)?;
                self.add(Request::Report, line)
            }
        }
    }

    // The next line, with the PIPE lines that belong to it.
    fn extend(
        &mut self,
        heap: Global,
        reader: &mut Reader<'a>,
        space: &'a [u8],
        row: &'a [u32],
    ) -> Result<(), Stop>
        ensures { elim result [
          | Ok u ↦ Extends space.now row.now self.old reader.old self.new reader.new
          | Err s ↦ Stops reader.old.lines (rest reader.old) s
        ] }
    {
        let text = &reader.text[reader.at..];
        let (order, line) = next_order(reader)?;
        go_on(reader, order);
        let source = Source {
            line,
            text,
            space,
            row,
        };
        self.obey(heap, order, source)?;
        Ok(())
    }
}

// The calls of a whole text. A call to write a sheet is given a copy of this space, and one to read a flow of this row.
pub(crate) fn read_script<'a>(
    heap: Global,
    text: &'a [u8],
    space: &'a [u8],
    row: &'a [u32],
) -> Result<Script<'a>, Stop>
    ensures { elim result [
      | Ok s ↦ Says text.now space.now row.now s.entries.items
      | Err s ↦ Breaks text.now space.now row.now s
    ] }
{
    let mut script = Script {
        entries: Vec::new(heap),
        places: MOST_JUNCTIONS,
    };
    let mut reader = Reader::new(text);
    while !reader.at_end() {
        script.extend(heap, &mut reader, space, row)?;
    }
    Ok(script)
}
