ghost use Rattle.std.specs.Prelude.{◌≡◌};
ghost use Rattle.compare_engines.specs.declared.stop.Stop.TheVariants.{Memory, Unread};

use formats::refusal::Refusal;
use std::alloc::AllocError;

// Why a script is not read to its end.
#[derive(Drop)]
pub enum Stop {
    Memory,
    Unread(Refusal),
}

impl From<AllocError> for Stop {
    ghost from_gives = { λ _ r. r ≡ Memory };

    fn from(_e: AllocError) -> Stop {
        Stop::Memory
    }
}

impl From<Refusal> for Stop {
    ghost from_gives = { λ e r. r ≡ Unread e };

    fn from(e: Refusal) -> Stop {
        Stop::Unread(e)
    }
}
