//! Counts of steps.
ghost use Rattle.std.specs.Prelude.{◌≡◌, neg_ℤ, IsTrue, if◌then◌else◌};
ghost use Rattle.actions.specs.Limits.{is_step_count};

use faults::run::BenchRefusal;

const MAX_STEP: u32 = 10_000;

/// How many moves a step makes: forward if it is positive, back if it is negative; 1 to 10,000 either way.
#[derive(Clone, Copy, PartialEq, Eq, Debug)]
pub struct StepCount {
    count: i32,
    ghost valid: { IsTrue (is_step_count count) },
}

impl StepCount {
    ghost use Rattle.actions.specs.StepCounts.{count_of, count_or_refusal};

    /// Refused if it is 0, or beyond 10,000 either way.
    pub fn new(count: i32) -> Result<StepCount, BenchRefusal>
        ensures { count_or_refusal result ≡ (if is_step_count count then Ok count else Err BenchRefusal.StepCount) }
    {
        if count == 0 || count.unsigned_abs() > MAX_STEP {
            return Err(BenchRefusal::StepCount);
        }
        Ok(StepCount { count })
    }

    /// As many moves the other way. Every step count has its opposite.
    pub fn opposite(self) -> StepCount
        ensures { count_of result ≡ neg_ℤ (count_of self) }
    {
        StepCount { count: -self.count }
    }

    /// The count as a number: of moves, with the sign of their direction.
    pub fn get(self) -> i32
        ensures number { result ≡ count_of self }
        ensures valid { IsTrue (is_step_count result) }
    {
        self.count
    }
}
