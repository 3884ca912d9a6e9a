ghost use Rattle.std.specs.Prelude.{◌≡◌, ◌≤◌, length};

// The most steps that a schedule has.
pub const MOST_STEPS: usize = 100;

// A step of a schedule: how long it lasts, and a letter for each pipe.
#[derive(Clone, Copy)]
pub struct TimedPattern<'a> {
    pub minutes: usize,
    pub letters: &'a [u8],
}

impl TimedPattern<'_> {
    // What stands behind the steps of a schedule.
    pub const UNUSED: TimedPattern<'static> = TimedPattern {
        minutes: 0,
        letters: b"",
    };
}

// The steps of a schedule: the first `count` elements of an array for the most that there may be, since no heap is there.
#[derive(Clone, Copy)]
pub struct Schedule<'a> {
    pub steps: [TimedPattern<'a>; MOST_STEPS],
    pub count: usize,
    ghost some: { 1 ≤ count },
    ghost few: { count ≤ 100 },
    ghost long: { length steps ≡ 100 },
}
