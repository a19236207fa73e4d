// Pseudo-random numbers, the same for the same seed.
ghost use Rattle.std.specs.Prelude.{◌<◌};

use language_theory::Range;

#[derive(Clone, Copy)]
pub struct Random {
    state: u64,
}

impl Random {
    pub fn new(seed: u32) -> Random {
        Random {
            state: u64::from(seed),
        }
    }

    /// The next 64 bits: the state goes on by an odd constant, and is mixed.
    fn bits(&mut self) -> u64 {
        self.state = self.state.wrapping_add(0x9e3779b97f4a7c15);
        let first = self.state ^ (self.state >> 30);
        let second = first.wrapping_mul(0xbf58476d1ce4e5b9);
        let third = (second ^ (second >> 27)).wrapping_mul(0x94d049bb133111eb);
        third ^ (third >> 31)
    }

    /// A number below a limit; 0 if that is 0.
    pub fn below(&mut self, limit: u32) -> u32
        ensures { 0 < limit → result < limit }
    {
        let number = (self.bits() >> 33) as u32;
        number.checked_rem(limit).unwrap_or(0)
    }

    /// True once in so many times.
    pub fn one_in(&mut self, times: u32) -> bool {
        self.below(times) == 0
    }

    /// A number from `low` to `high`; of a wide range one not far from `low`.
    pub fn between(&mut self, low: i64, high: i64) -> i64 {
        let width = high.saturating_sub(low).saturating_add(1);
        let limit = u32::try_from(width).unwrap_or(u32::MAX);
        low.saturating_add(i64::from(self.below(limit)))
    }

    /// A number of a range, its ends more often than others.
    pub fn of_range(&mut self, range: Range) -> i64 {
        match self.below(4) {
            0 => range.low,
            1 => range.high,
            _ => self.between(range.low, range.high),
        }
    }
}
