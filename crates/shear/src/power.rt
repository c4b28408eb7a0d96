// "The greatest whole number with" of document 01, where a second or third power is compared: r and q of the shear resistance.
ghost use Rattle.std.specs.Prelude.{◌≡◌, ◌≤◌, suc};
ghost use Rattle.arith.specs.Greatest.{greatest};
ghost use Rattle.shear.specs.Code.Power.{power_at_most, PowersFit};

// A root of 6.2.2(1), r with E 3 or q with E 2, which document 01 asks for as the greatest k up to `most` with kᴱ·a at most y.
#[derive(Clone, Copy)]
pub struct Root<const E: u32> {
    pub a: u64,
    pub y: u64,
    pub most: u64,
    pub ghost exponent: { (2 ≤ E) × (E ≤ 3) },
    // no power and no product past 64 bits, at the number after `most` too: a guess is tried against the next one
    pub ghost fits: { PowersFit E a (suc most) },
}

impl<const E: u32> Root<E> {
    // Is kᴱ·a at most y?
    #[tactic(auto, using(crate::proofs::Powers::fits_below))]
    fn passes(&self, k: u64) -> bool
        requires { k ≤ suc self.now.most }
        ensures { result ≡ power_at_most E self.now.a self.now.y k }
    {
        k.pow(E) * self.a <= self.y
    }

    // The root by halving: it lies from `k` to `k + span`, and the trial is in the middle. The span is halved in the same way whether the
    // trial passes or not: the number of trials then follows from `most` alone, and the compiler lays them out one after the other without
    // a branch.
    fn by_halving(&self) -> u64
        ensures { result ≡ greatest (power_at_most E self.now.a self.now.y) self.now.most }
    {
        let mut k: u64 = 0;
        let mut span = self.most;
        while 0 < span {
            let rest = span / 2;
            let trial = k + (span - rest);
            span = rest;
            if self.passes(trial) {
                k = trial;
            }
        }
        k
    }

    // The root from a guess: where the guess passes and the next number does not, it is the greatest.
    #[tactic(auto, using(crate::proofs::Powers::number_fits))]
    pub fn near(&self, guess: u64) -> u64
        ensures { result ≡ greatest (power_at_most E self.now.a self.now.y) self.now.most }
    {
        if guess <= self.most && self.passes(guess) && !self.passes(guess + 1) {
            return guess;
        }
        self.by_halving()
    }
}
