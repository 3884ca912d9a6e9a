ghost use Rattle.std.specs.Prelude.{◌≡◌, if◌then◌else◌, Ok, Err};
ghost use Rattle.formats.specs.declared.refusal.Refusal.TheVariants.{WrongLetter};
ghost use Rattle.formats.specs.Letters.{valve_of, setting_of, is_pattern, set_to};

use crate::refusal::Refusal;
use crate::setting::Setting;
use network::valve::Valve;

// Two functions, and no TryFrom<u8>: a Valve is of a crate that knows no letters, a letter means one thing in a sheet
// and another in a pattern, and callers name the line of a letter that means nothing, so an error of its own would say
// no more than None.

// The valve that a letter of a sheet means.
pub fn read_valve(letter: u8) -> Option<Valve>
    ensures { result ≡ valve_of letter }
{
    match char::from(letter) {
        'O' => Some(Valve::Open),
        'C' => Some(Valve::Closed),
        _ => None,
    }
}

// What a letter of a pattern asks of its valve.
pub fn read_setting(letter: u8) -> Option<Setting>
    ensures { result ≡ setting_of letter }
{
    match char::from(letter) {
        'O' => Some(Setting::Open),
        'C' => Some(Setting::Closed),
        '=' => Some(Setting::Unchanged),
        _ => None,
    }
}

impl Setting {
    // The valve after this setting.
    pub fn apply(self, valve: Valve) -> Valve
        ensures { result ≡ set_to self valve }
    {
        match self {
            Setting::Open => Valve::Open,
            Setting::Closed => Valve::Closed,
            Setting::Unchanged => valve,
        }
    }
}

// Passes a pattern whose letters all mean a setting.
pub fn check_pattern(letters: &[u8], line: usize) -> Result<(), Refusal>
    ensures { result ≡ (if is_pattern letters.now then Ok tt else Err (WrongLetter line)) }
{
    for letter in letters {
        if read_setting(*letter).is_none() {
            return Err(Refusal::WrongLetter(line));
        }
    }
    Ok(())
}
