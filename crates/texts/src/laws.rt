ghost use Rattle.std.specs.Prelude.{ℕ, ◌≤◌};
ghost use Rattle.network.specs.Network.{Network, Sound};
ghost use Rattle.texts.specs.Laws.{SheetLaws, OneSheet, ScheduleLaws, TextLaws, RefusalLaws};

// These functions do nothing: each stands for the law in its contract, so that no check passes without its proof.
// They speak of texts that begin on any line, of schedules alone, and of whole texts.

// A text is accepted as a network exactly when it begins with the sheet of that network.
pub fn sheets_read_back()
    ensures { (most : ℕ) → most ≤ 64 → SheetLaws most }
{}

// Two networks have different sheets.
pub fn sheets_differ()
    ensures { (w u : Network) → Sound w → Sound u → OneSheet w u }
{}

// A text is accepted as a schedule exactly when it is the schedule of those steps; two lists of steps have different
// schedules.
pub fn schedules_read_back()
    ensures { (pipes : ℕ) → ScheduleLaws pipes }
{}

// A text is accepted as a network and steps exactly when it is the sheet of that network and then the schedule of those
// steps.
pub fn texts_read_back()
    ensures { (most : ℕ) → most ≤ 64 → TextLaws most }
{}

// Each refusal is given exactly when its condition is the first missed, in the order of lines and fields.
pub fn refusals_in_order()
    ensures { RefusalLaws }
{}
