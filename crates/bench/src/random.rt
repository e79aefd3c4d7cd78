// Numbers that look random, and are the same in every run.

// A linear congruential generator.
#[derive(Drop)]
pub struct Random {
    state: u64,
}

impl Random {
    pub fn new(seed: u64) -> Random {
        Random { state: seed }
    }

    // The next number.
    // It is the upper half of the state, since the lower bits repeat soon.
    fn draw(&mut self) -> u32 {
        self.state = self
            .state
            .wrapping_mul(6364136223846793005)
            .wrapping_add(1442695040888963407);
        (self.state >> 32) as u32
    }

    // Below 1,000,000.
    pub fn worth(&mut self) -> u32 {
        self.draw() % 1_000_000
    }

    // From 0 to `most`.
    pub fn count(&mut self, most: u8) -> u8 {
        (self.draw() % (u32::from(most) + 1)) as u8
    }
}
