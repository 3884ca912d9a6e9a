// Why a call is turned down. A reason that concerns a line of the text carries the line's number, counted from 1.
#[derive(Clone, Copy, PartialEq, Eq, Debug)]
pub enum Refusal {
    // A line is missing, lacks its line feed, or has another length than is due there.
    BadLine(usize),
    // The line begins with another kind word than is due there.
    WrongKind(usize),
    // A number is badly written, or a blank column is filled.
    BadNumber(usize),
    // A number is out of its range.
    OutOfRange(usize),
    // A letter that means nothing in its place.
    WrongLetter(usize),
    // Pump and outlet, or the two ends of a pipe, are the same junction.
    SameEnds(usize),
    // Bytes follow the last line.
    TrailingBytes(usize),
    // The network has no pipe of that number.
    NoSuchPipe,
    // The workspace has fewer places than the most junctions that the engine takes.
    FewPlaces,
    // The answer does not fit into the space that was handed over.
    LittleSpace,
    // The valve to be opened is open.
    AlreadyOpen,
    // The valve to be closed is closed.
    AlreadyClosed,
}
