//! Numbers that a seed gives.
ghost use Rattle.std.specs.Prelude.{◌<◌};

/// Numbers one after another, by the method that is published as SplitMix64.
#[derive(Drop)]
pub struct Random {
    state: u64,
}

impl Random {
    /// The numbers of one entry of the table of a seed.
    pub fn new(seed: u32, id: u32) -> Random {
        Random {
            state: (seed as u64) << 32 | id as u64,
        }
    }

    /// The next number.
    fn word(&mut self) -> u64 {
        self.state = self.state.wrapping_add(0x9e37_79b9_7f4a_7c15);
        let first = (self.state ^ (self.state >> 30)).wrapping_mul(0xbf58_476d_1ce4_e5b9);
        let second = (first ^ (first >> 27)).wrapping_mul(0x94d0_49bb_1331_11eb);
        second ^ (second >> 31)
    }

    /// The next number, below the bound; 0 where the bound is 0.
    pub fn below(&mut self, bound: u32) -> u32
        ensures { 0 < bound → result < bound }
    {
        if bound == 0 {
            return 0;
        }
        ((self.word() >> 32) % bound as u64) as u32
    }
}
