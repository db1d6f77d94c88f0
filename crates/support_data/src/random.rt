ghost use Rattle.std.specs.Prelude.{◌<◌};

/// A linear congruential generator. Its numbers are the same in each run.
#[derive(Drop)]
pub struct Random {
    state: u64,
}

impl Random {
    pub fn new(seed: u64) -> Random {
        Random { state: seed }
    }

    /// The next number below `n`, or 0 if `n` is 0.
    pub fn below(&mut self, n: u32) -> u32
        ensures { 0 < n → result < n }
    {
        self.state = self
            .state
            .wrapping_mul(6364136223846793005)
            .wrapping_add(1442695040888963407);
        ((self.state >> 33) % u64::from(n.max(1))) as u32
    }
}
