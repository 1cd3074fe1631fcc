// Noise by a seed: the same seed disturbs the same bytes.
ghost use Rattle.std.specs.Prelude.{◌≡◌};

// Of 100,000 bytes about rate are disturbed; the state says which come next.
#[derive(Clone, Copy, Debug, PartialEq, Eq)]
pub struct Noise {
    pub state: u64,
    pub rate: u64,
}

impl Noise {
    // The state that a seed gives: any but 0, stirred until near seeds have gone apart.
    pub fn sown(seed: u64, rate: u64) -> Noise
        ensures { result.rate ≡ rate }
    {
        let first = seed.wrapping_add(0x9E3779B97F4A7C15).max(1);
        let state = (0..64).fold(first, |state, _| stirred(state));
        Noise { state, rate }
    }

    // The next number of the noise.
    pub(crate) fn drawn(&mut self) -> u64
        ensures { self.new.rate ≡ self.old.rate }
    {
        self.state = stirred(self.state);
        self.state
    }
}

// The next state, by Marsaglia's three shifts.
fn stirred(x: u64) -> u64 {
    let a = x ^ (x << 13);
    let b = a ^ (a >> 7);
    b ^ (b << 17)
}
