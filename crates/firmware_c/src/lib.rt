#![tactic(auto)]

ghost use Rattle.firmware.specs.Entry.{Rated};

// The firmware's entry for programs in C, which declare it by include/diljusk.h. It answers 0 or the refusal's number, since C
// has no Result.
#[unsafe(no_mangle)]
pub extern "C" fn diljusk_rate(text: &[u8], page: &mut [u8]) -> u32
    ensures { Rated text.now page.old result page.new }
{
    firmware::diljusk_rate(text, page)
}
