ghost use Rattle.std.specs.Prelude.{◌≡◌, ◌+◌, ◌%◌, ◌^◌, ◌∷◌, ◌++◌, [], cond, is_ok, OnOk};
ghost use Rattle.random_trials.specs.Tallies.{summed};

use formats::refusal::Refusal;
use network::report::Report;
use std::alloc::AllocError;
use std::collections::BTreeMap;
use std::ops::AddAssign;

// How many checks were made and how many failed, and how many augmentations an engine counted.
#[derive(Clone, Copy, Default)]
pub struct Tally {
    pub checks: u64,
    pub failures: u64,
    pub augmentations: u64,
}

impl Tally {
    pub fn expect(&mut self, right: bool)
        ensures checks { self.new.checks ≡ (self.old.checks + 1) % 2 ^ 64 }
        ensures failures { self.new.failures ≡ cond right self.old.failures ((self.old.failures + 1) % 2 ^ 64) }
        ensures augmentations { self.new.augmentations ≡ self.old.augmentations }
    {
        self.checks = self.checks.wrapping_add(1);
        if !right {
            self.failures = self.failures.wrapping_add(1);
        }
    }

    pub fn count(&mut self, augmentations: u32)
        ensures checks { self.new.checks ≡ self.old.checks }
        ensures failures { self.new.failures ≡ self.old.failures }
        ensures augmentations { self.new.augmentations ≡ (self.old.augmentations + augmentations) % 2 ^ 64 }
    {
        self.augmentations = self.augmentations.wrapping_add(u64::from(augmentations));
    }
}

impl AddAssign for Tally {
    ghost add_assign_gives = { λ s t sum. sum ≡ summed s t };

    fn add_assign(&mut self, more: Tally) {
        self.checks = self.checks.wrapping_add(more.checks);
        self.failures = self.failures.wrapping_add(more.failures);
        self.augmentations = self.augmentations.wrapping_add(more.augmentations);
    }
}

// How the calls on the networks went by the plan, and what the first engine reported after each call on the network at hand.
#[derive(Drop)]
pub struct Log {
    pub accepted: u32,
    // How many calls were refused by each number, as it is printed.
    pub refused: BTreeMap<u32, u32>,
    pub reports: Vec<Option<Report>>,
}

impl Log {
    // One more call, and the report after it.
    pub fn note(
        &mut self,
        due: Result<(), Refusal>,
        report: Option<Report>,
    ) -> Result<(), AllocError>
        ensures accepted { OnOk result (self.new.accepted ≡ cond (is_ok due) ((self.old.accepted + 1) % 2 ^ 32) self.old.accepted) }
        ensures noted { OnOk result (self.new.reports.items ≡ self.old.reports.items ++ report ∷ []) }
    {
        match due {
            Ok(()) => self.accepted = self.accepted.wrapping_add(1),
            Err(refusal) => {
                let times = self.refused.entry(refusal.number())?.or_insert(0);
                *times = times.wrapping_add(1);
            }
        }
        self.reports.push(report)?;
        Ok(())
    }
}
