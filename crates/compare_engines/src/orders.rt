ghost use Rattle.std.specs.Prelude.{◌≡◌, ◌≤◌, true, length};
ghost use Rattle.formats.specs.Sheets.{number_at};
ghost use Rattle.compare_engines.specs.Orders.{kind_of, fits, at_most, limit_in, asked, order_in};

use crate::kind::Kind;
use crate::order::Order;
use formats::fields::{COUNT_COLUMNS, FIELD_COLUMNS, KIND_COLUMNS, SHEET_COLUMNS};
use formats::reader::Line;
use formats::refusal::Refusal;
use network::table::MOST_PIPES;

// The columns of a line with two fields behind its kind word.
const TWO_FIELDS: usize = COUNT_COLUMNS + FIELD_COLUMNS;

// The greatest number that five columns hold.
const MOST_NUMBER: usize = 99_999;

// The kind of a line that has a kind word.
fn read_kind(bytes: &[u8]) -> Option<Kind>
    requires { 4 ≤ length bytes.now }
    ensures { result ≡ kind_of bytes.now }
{
    match &bytes[..KIND_COLUMNS] {
        b"NETW" => Some(Kind::Netw),
        b"OPEN" => Some(Kind::Open),
        b"SHUT" => Some(Kind::Shut),
        b"LIMT" => Some(Kind::Limt),
        b"VALV" => Some(Kind::Valv),
        b"REPT" => Some(Kind::Rept),
        b"GOVN" => Some(Kind::Govn),
        b"SHET" => Some(Kind::Shet),
        b"FLOW" => Some(Kind::Flow),
        b"PLAC" => Some(Kind::Plac),
        b"SCHD" => Some(Kind::Schd),
        b"STEP" => Some(Kind::Step),
        _ => None,
    }
}

impl Kind {
    // Whether a line of this kind may have so many columns.
    fn fits(self, columns: usize) -> bool
        ensures { result ≡ fits self columns }
    {
        match self {
            Kind::Netw => columns == SHEET_COLUMNS,
            Kind::Limt => columns == TWO_FIELDS,
            Kind::Open | Kind::Shut | Kind::Govn | Kind::Plac | Kind::Schd => columns
                == COUNT_COLUMNS,
            Kind::Rept | Kind::Shet | Kind::Flow => columns == KIND_COLUMNS,
            Kind::Valv => columns >= KIND_COLUMNS,
            Kind::Step => columns >= COUNT_COLUMNS,
        }
    }

    // What a line of this kind asks for: a table of the kinds, which a closure or an impl for each would only spread.
    fn order(self, line: &Line) -> Result<Order, Refusal>
        requires { fits self (length line.now.bytes.now) ≡ true }
        ensures { result ≡ asked line.now.number line.now.bytes.now self }
    {
        match self {
            Kind::Netw => Ok(Order::Sheet(pipe_lines(line))),
            Kind::Open => Ok(Order::Open(line.field(0, 0, MOST_NUMBER)?)),
            Kind::Shut => Ok(Order::Close(line.field(0, 0, MOST_NUMBER)?)),
            Kind::Limt => read_limit(line),
            Kind::Valv => Ok(Order::Pattern),
            Kind::Rept => Ok(Order::Report),
            Kind::Govn => Ok(Order::Governing(line.field(0, 0, MOST_NUMBER)?)),
            Kind::Shet => Ok(Order::WriteSheet),
            Kind::Flow => Ok(Order::ReadFlow),
            Kind::Plac => Ok(Order::Places(line.field(0, 0, MOST_NUMBER)?)),
            Kind::Schd => Ok(Order::Schedule),
            Kind::Step => Ok(Order::Step),
        }
    }
}

// How many PIPE lines the first line of a sheet speaks of, or the most that a sheet has where it is badly written.
fn pipe_lines(line: &Line) -> usize
    requires { 14 ≤ length line.now.bytes.now }
    ensures { result ≡ at_most (number_at line.now.number 1 0 512 line.now.bytes.now) }
{
    line.field(1, 0, MOST_PIPES).unwrap_or(MOST_PIPES)
}

// A pipe and its new limit.
fn read_limit(line: &Line) -> Result<Order, Refusal>
    requires { 14 ≤ length line.now.bytes.now }
    ensures { result ≡ limit_in line.now.number line.now.bytes.now }
{
    let pipe = line.field(0, 0, MOST_NUMBER)?;
    let limit = line.field(1, 0, MOST_NUMBER)?;
    Ok(Order::Limit(pipe, limit as u32))
}

// What a line asks for, or why it cannot be read.
pub(crate) fn read_order(line: &Line) -> Result<Order, Refusal>
    ensures { result ≡ order_in line.now.number line.now.bytes.now }
{
    let columns = line.bytes.len();
    if columns < KIND_COLUMNS {
        return Err(Refusal::BadLine(line.number));
    }
    let Some(kind) = read_kind(line.bytes) else {
        return Err(Refusal::WrongKind(line.number));
    };
    if !kind.fits(columns) {
        return Err(Refusal::BadLine(line.number));
    }
    kind.order(line)
}
