ghost use Rattle.std.specs.Prelude.{◌≡◌};
ghost use Rattle.network.specs.Cuts.{has};

// Whether junction k is in the set: bit k of the word, and of a junction beyond the word not.
pub fn holds(set: u64, k: usize) -> bool
    ensures { result ≡ has set k }
{
    k < 64 && (set >> k) % 2 == 1
}
