// Numbers that look random, and are the same for the same seed.
ghost use Rattle.std.specs.Prelude.{◌<◌, length};

#[derive(Drop)]
pub struct Random {
    state: u64,
}

impl Random {
    pub fn new(seed: u64) -> Random {
        Random { state: seed }
    }

    // SplitMix64: a step by an odd constant, then a mix of its bits.
    fn number(&mut self) -> u64 {
        self.state = self.state.wrapping_add(0x9E37_79B9_7F4A_7C15);
        let x = self.state;
        let x = (x ^ (x >> 30)).wrapping_mul(0xBF58_476D_1CE4_E5B9);
        let x = (x ^ (x >> 27)).wrapping_mul(0x94D0_49BB_1331_11EB);
        x ^ (x >> 31)
    }

    // That a bound is not 0 is asked of the caller, here and below: nearly all are literals or the lengths of constant
    // pools, where a type for it would only be made and taken apart.
    pub fn below(&mut self, bound: usize) -> usize
        requires { 0 < bound }
        ensures { result < bound }
    {
        (self.number() % bound as u64) as usize
    }

    pub fn one_in(&mut self, bound: usize) -> bool
        requires { 0 < bound }
    {
        self.below(bound) == 0
    }

    pub fn byte(&mut self) -> u8 {
        (self.number() & 0xFF) as u8
    }

    // One of the pool, each as likely as another.
    pub fn pick<T: Copy>(&mut self, pool: &[T]) -> T
        requires { 0 < length pool.now }
    {
        let at = self.below(pool.len());
        pool[at]
    }

    // One of the pool, each as likely as its weight says.
    pub fn pick_weighted<T: Copy>(&mut self, pool: &[(T, usize)]) -> T
        requires { 0 < length pool.now }
    {
        let total = pool
            .iter()
            .fold(0usize, |sum, (_, weight)| sum.saturating_add(*weight));
        let mut left = self.below(total.max(1));
        for (item, weight) in pool {
            if left < *weight {
                return *item;
            }
            left -= *weight;
        }
        pool[0].0
    }
}
