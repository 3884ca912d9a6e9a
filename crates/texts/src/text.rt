ghost use Rattle.std.specs.Prelude.{◌≡◌, ◌≤◌, map, length, take, drop, IfOk, Ok, Err};
ghost use Rattle.network.specs.Pipes.{network_of};
ghost use Rattle.network.specs.Rows.{Each, Dry};
ghost use Rattle.formats.specs.Schedules.{timed};
ghost use Rattle.formats.specs.Sheets.{sheet_in};
ghost use Rattle.texts.specs.Laws.{SheetRead, SheetRefused, TextRefused, Read};
ghost use Rattle.texts.specs.Texts.{text_in};

use crate::extent::Extent;
use formats::reader::Reader;
use formats::refusal::Refusal;
use formats::schedule::Schedule;
use network::table::Table;

// In both calls `most` is the most junctions that the caller takes. A table holds 64, and every engine is proved to take
// no more.

// The network of the sheet that a text begins with, with dry pipes, and how many bytes the sheet has.
pub fn read_sheet(text: &[u8], most: usize) -> Result<(Table, usize), Refusal>
    requires { most ≤ 64 }
    ensures verdict { elim result [
      | Ok p ↦ (sheet_in most 1 text.now ≡ Ok (network_of p.0, drop p.1 text.now))
          × (p.1 ≤ length text.now)
          × (p.0.junctions ≤ most)
          × Each Dry p.0.rows p.0.count
      | Err e ↦ sheet_in most 1 text.now ≡ Err e
    ] }
    ensures sheet { elim result [
      | Ok p ↦ SheetRead most text.now (network_of p.0) p.1
      | Err e ↦ SheetRefused most text.now e
    ] }
{
    let mut reader = Reader::new(text);
    let table = reader.sheet(most)?;
    Ok((table, reader.at))
}

// What the whole text says, a sheet and a schedule: how much there is to rate, and the steps.
pub fn read_text<'a>(text: &'a [u8], most: usize) -> Result<(Extent, Schedule<'a>), Refusal>
    requires { most ≤ 64 }
    ensures { elim result [
      | Ok p ↦ Read most text.now (map timed (take p.1.count p.1.steps)) p.0
      | Err e ↦ (text_in most text.now ≡ Err e) × TextRefused most text.now e
    ] }
{
    let mut reader = Reader::new(text);
    let table = reader.sheet(most)?;
    let schedule = reader.schedule(table.count)?;
    let extent = Extent {
        steps: schedule.count,
        junctions: table.junctions,
        pipes: table.count,
    };
    Ok((extent, schedule))
}
