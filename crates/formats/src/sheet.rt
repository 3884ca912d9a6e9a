ghost use Rattle.std.specs.Prelude.{◌≡◌, ◌+◌, ◌*◌, ◌≤◌, true, false, length, IfOk, Ok, Err, codes};
ghost use Rattle.network.specs.Network.{Pipe};
ghost use Rattle.network.specs.Rows.{Each, Dry};
ghost use Rattle.network.specs.Pipes.{pipe_of, network_of};
ghost use Rattle.formats.specs.Lines.{ended};
ghost use Rattle.formats.specs.Readers.{rest, Advanced, LinesRead};
ghost use Rattle.formats.specs.Sheets.{due, number_at, header, valve_at, pipe_in, sheet_in, SoundHeader, DryRow};
ghost use Rattle.formats.specs.declared.header.Header.{Header};

use crate::fields::{BLANK, FIELD_COLUMNS, KIND_COLUMNS, SHEET_COLUMNS, is_kind, read_number};
use crate::header::Header;
use crate::kind::Kind;
use crate::letters::read_valve;
use crate::reader::{Line, Reader};
use crate::refusal::Refusal;
use network::row::Row;
use network::table::{MOST_LIMIT, MOST_PIPES, Table};
use network::valve::Valve;

// Where the blank columns of a pipe line begin.
const BLANKS_START: usize = KIND_COLUMNS + 3 * FIELD_COLUMNS;

impl<'a> Reader<'a> {
    // The next line, if it is the one that is due. Another line is passed over too.
    pub fn due(&mut self, kind: &[u8; 4], columns: usize) -> Result<Line<'a>, Refusal>
        requires { 4 ≤ columns }
        ensures { elim result [
          | Ok l ↦ (due kind.now columns (self.old.lines + 1) (rest self.old) ≡ Ok l.bytes.now)
              × (length l.bytes.now ≡ columns)
              × (l.number ≡ self.old.lines + 1)
              × Advanced self.old self.new
          | Err e ↦ (due kind.now columns (self.old.lines + 1) (rest self.old) ≡ Err e)
              × (ended (rest self.old) ≡ true → Advanced self.old self.new)
              × (ended (rest self.old) ≡ false → self.new ≡ self.old)
        ] }
    {
        let number = self.lines + 1;
        let Some(line) = self.next_line() else {
            return Err(Refusal::BadLine(number));
        };
        if line.bytes.len() != columns {
            return Err(Refusal::BadLine(number));
        }
        if is_kind(line.bytes, kind) {
            Ok(line)
        } else {
            Err(Refusal::WrongKind(number))
        }
    }
}

impl Line<'_> {
    // The number in field `k`, if it is from `least` to `most`.
    pub fn field(&self, k: usize, least: usize, most: usize) -> Result<usize, Refusal>
        requires { 4 + 5 * k + 5 ≤ length self.now.bytes.now }
        ensures is { result ≡ number_at self.now.number k least most self.now.bytes.now }
        ensures within { IfOk result (λ n. (least ≤ n) × (n ≤ most)) }
    {
        let from = KIND_COLUMNS + FIELD_COLUMNS * k;
        let Some(n) = read_number(&self.bytes[from..][..FIELD_COLUMNS]) else {
            return Err(Refusal::BadNumber(self.number));
        };
        let n = n as usize;
        if (least..=most).contains(&n) {
            Ok(n)
        } else {
            Err(Refusal::OutOfRange(self.number))
        }
    }

    fn valve(&self) -> Result<Valve, Refusal>
        requires { length self.now.bytes.now ≡ 24 }
        ensures { result ≡ valve_at self.now.number self.now.bytes.now }
    {
        // columns 20 to 23 are blank, and column 24 has the valve's letter
        match &self.bytes[BLANKS_START..] {
            [BLANK, BLANK, BLANK, BLANK, letter] => {
                read_valve(*letter).ok_or(Refusal::WrongLetter(self.number))
            }
            _ => Err(Refusal::BadNumber(self.number)),
        }
    }
}

// The first line of a sheet, with the most junctions that it may name.
#[derive(Clone, Copy)]
struct HeaderLine {
    most: usize,
}

impl<'a> Kind<'a> for HeaderLine {
    type Told = Header;

    ghost Meaning = { Header };

    ghost meaning = { λ h. h };

    ghost word = { codes "NETW" };

    ghost columns = { λ k. 24 };

    ghost says = { λ k. header k.most };

    ghost Sound = { λ k. SoundHeader k.most };

    fn word(&self) -> &'static [u8; 4] {
        b"NETW"
    }

    fn columns(&self) -> usize {
        SHEET_COLUMNS
    }

    fn read(&self, line: &Line<'a>) -> Result<Header, Refusal> {
        let junctions = line.field(0, 2, self.most)?;
        let pipes = line.field(1, 0, MOST_PIPES)?;
        let pump = line.field(2, 0, junctions - 1)?;
        let outlet = line.field(3, 0, junctions - 1)?;
        if pump == outlet {
            return Err(Refusal::SameEnds(line.number));
        }
        Ok(Header {
            junctions,
            pipes,
            pump,
            outlet,
        })
    }
}

// A pipe line of a sheet, between so many junctions.
#[derive(Clone, Copy)]
struct PipeLine {
    junctions: usize,
    ghost some: { 1 ≤ junctions },
}

impl<'a> Kind<'a> for PipeLine {
    type Told = Row;

    ghost Meaning = { Pipe };

    ghost meaning = { pipe_of };

    ghost word = { codes "PIPE" };

    ghost columns = { λ k. 24 };

    ghost says = { λ k. pipe_in k.junctions };

    ghost Sound = { λ k. DryRow k.junctions };

    fn word(&self) -> &'static [u8; 4] {
        b"PIPE"
    }

    fn columns(&self) -> usize {
        SHEET_COLUMNS
    }

    fn read(&self, line: &Line<'a>) -> Result<Row, Refusal> {
        let from = line.field(0, 0, self.junctions - 1)?;
        let to = line.field(1, 0, self.junctions - 1)?;
        let limit = line.field(2, 1, MOST_LIMIT as usize)?;
        let valve = line.valve()?;
        if from == to {
            return Err(Refusal::SameEnds(line.number));
        }
        Ok(Row {
            from,
            to,
            limit: limit as u32,
            flow: 0,
            valve,
        })
    }
}

impl Reader<'_> {
    // The network of a sheet, with dry pipes.
    pub fn sheet(&mut self, most: usize) -> Result<Table, Refusal>
        requires { most ≤ 64 }
        ensures { elim result [
          | Ok t ↦ (sheet_in most (self.old.lines + 1) (rest self.old) ≡ Ok (network_of t, rest self.new))
              × (t.junctions ≤ most)
              × Each Dry t.rows t.count
              × LinesRead (1 + t.count) self.old self.new
          | Err e ↦ sheet_in most (self.old.lines + 1) (rest self.old) ≡ Err e
        ] }
    {
        let Header {
            junctions,
            pipes,
            pump,
            outlet,
        } = self.read_line(&HeaderLine { most })?;
        // No heap: rows for the most pipes, of which those of the sheet are filled.
        let mut rows = [Row::UNUSED; MOST_PIPES];
        self.fill(&PipeLine { junctions }, &mut rows[..pipes])?;
        Ok(Table {
            junctions,
            pump,
            outlet,
            rows,
            count: pipes,
        })
    }
}
