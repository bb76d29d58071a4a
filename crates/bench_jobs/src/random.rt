//! Numbers that look random.
ghost use Rattle.std.specs.Prelude.{◌<◌, ◌≤◌};

/// Numbers that look random, the same for the same seed (SplitMix64).
#[derive(Drop)]
pub struct Random {
    state: u64,
}

impl Random {
    /// Those of a session of a job.
    pub fn of(seed: u64, job: u32, session: u32) -> Random {
        let place = u64::from(job) << 32 | u64::from(session);
        let mut random = Random { state: seed };
        random.state = random.next() ^ place.wrapping_mul(0xD134_2543_DE82_EF95);
        random
    }

    fn next(&mut self) -> u64 {
        self.state = self.state.wrapping_add(0x9E37_79B9_7F4A_7C15);
        let mixed = (self.state ^ (self.state >> 30)).wrapping_mul(0xBF58_476D_1CE4_E5B9);
        let mixed = (mixed ^ (mixed >> 27)).wrapping_mul(0x94D0_49BB_1331_11EB);
        mixed ^ (mixed >> 31)
    }

    /// A number below a limit; 0 where that is 0.
    pub fn below(&mut self, limit: u32) -> u32
        ensures below { 0 < limit → result < limit }
        ensures bound { result ≤ limit }
    {
        if limit == 0 {
            return 0;
        }
        (self.next() >> 32) as u32 % limit
    }
}
