ghost use Rattle.std.specs.Prelude.{◌≡◌, ◌≤◌, ◌&&◌, length, nat_le};
ghost use Rattle.formats.specs.Fields.{digits_from, number_in};
ghost use Rattle.formats.specs.Sheets.{of_kind};

pub const BLANK: u8 = b' ';

// A line begins with a kind word of four letters, and its number fields have five columns each.
pub const KIND_COLUMNS: usize = 4;

pub const FIELD_COLUMNS: usize = 5;

// The columns of a line with one field behind its kind word, and of each line of a sheet.
pub const COUNT_COLUMNS: usize = KIND_COLUMNS + FIELD_COLUMNS;

pub const SHEET_COLUMNS: usize = KIND_COLUMNS + 4 * FIELD_COLUMNS;

// The number that digits spell, if it fits.
fn read_digits(digits: &[u8]) -> Option<u32>
    ensures { result ≡ digits_from 0 digits.now }
{
    let mut sum: u32 = 0;
    for digit in digits {
        if !digit.is_ascii_digit() {
            return None;
        }
        sum = sum.checked_mul(10)?.checked_add(u32::from(*digit - b'0'))?;
    }
    Some(sum)
}

// The number in a field: blanks, then digits with no needless zero, up to the field's end.
pub fn read_number(field: &[u8]) -> Option<u32>
    ensures { result ≡ number_in field.now }
{
    let mut rest = field;
    while let [BLANK, behind @ ..] = rest {
        rest = behind;
    }
    match rest {
        [b'0'] => Some(0),
        [] | [b'0', ..] => None,
        digits => read_digits(digits),
    }
}

// Whether bytes begin with a kind word.
pub fn is_kind(bytes: &[u8], kind: &[u8; 4]) -> bool
    ensures { result ≡ (nat_le 4 (length bytes.now) && of_kind kind.now bytes.now) }
{
    bytes.starts_with(kind)
}
