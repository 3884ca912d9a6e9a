ghost use Rattle.std.specs.Prelude.{◌≡◌, length};
ghost use Rattle.formats.specs.Fields.{padded, written};

use formats::fields::BLANK;

// Writes a number into a field, right-justified, with blanks to the left.
#[tactic(auto, unfolding(formats::specs::Fields::written))]
pub fn put_number(field: &mut [u8], value: u64)
    ensures { field.new ≡ written (length field.old) value }
{
    let Some((last, front)) = field.split_last_mut() else {
        return;
    };
    *last = b'0' + (value % 10) as u8;
    put_tens(front, value / 10);
}

// Writes what is left of a number's last digit, from the right: its other digits, and blanks where it has no more; 0 is blank
// here, and a digit there. It calls itself for each column, of which a field has 14 at most.
fn put_tens(front: &mut [u8], tens: u64)
    ensures { front.new ≡ padded (length front.old) tens }
{
    let Some((last, left)) = front.split_last_mut() else {
        return;
    };
    *last = if tens == 0 {
        BLANK
    } else {
        b'0' + (tens % 10) as u8
    };
    put_tens(left, tens / 10);
}
