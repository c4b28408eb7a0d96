// Roots from a guess that is tested: nothing is promised of the guess. The number's first bits give one from a table, about two hundredths
// off at most, and one step of Halley's rule leaves the cube of that. The remainders by powers of two only show that nothing overflows.
// Each `as` is proved not to lose; try_from would add an exit that never comes.
ghost use Rattle.std.specs.Prelude.{◌<◌, ◌≤◌, ◌≡◌};
ghost use Rattle.arith.specs.Greatest.{greatest};
ghost use Rattle.shear.specs.Code.Power.{power_at_most};

use super::power::Root;

// 8,192 times the cube root of (m + 1/2)/64, for each m.
pub static CUBE_STARTS: [u16; 64] = [
    1625, 2344, 2780, 3109, 3381, 3615, 3822, 4009, 4180, 4337, 4485, 4623, 4753, 4876, 4994, 5106,
    5214, 5317, 5417, 5512, 5605, 5695, 5782, 5866, 5948, 6028, 6106, 6182, 6256, 6328, 6399, 6468,
    6536, 6602, 6667, 6731, 6794, 6855, 6915, 6975, 7033, 7091, 7147, 7203, 7257, 7311, 7365, 7417,
    7469, 7520, 7570, 7620, 7669, 7717, 7765, 7812, 7859, 7905, 7950, 7995, 8040, 8084, 8127, 8171,
];

// 8,192 times the square root of (m + 1/2)/64.
pub static SQUARE_STARTS: [u16; 64] = [
    724, 1254, 1619, 1916, 2172, 2401, 2611, 2804, 2985, 3156, 3318, 3473, 3620, 3762, 3899, 4031,
    4160, 4284, 4404, 4522, 4636, 4748, 4857, 4964, 5069, 5171, 5271, 5370, 5467, 5562, 5655, 5747,
    5838, 5927, 6015, 6101, 6187, 6271, 6354, 6436, 6517, 6597, 6676, 6754, 6831, 6907, 6983, 7057,
    7131, 7204, 7277, 7349, 7420, 7490, 7560, 7629, 7697, 7765, 7832, 7899, 7965, 8030, 8095, 8160,
];

// One step of Halley's rule from g towards the Eth root of z. The 1 keeps the divisor from being 0.
fn step<const E: u32>(g: u64, z: u64) -> u64
    // (As of `Root`, of which it is no part: it takes any g and z.)
    requires exponent { (2 ≤ E) × (E ≤ 3) }
    requires small { (g < 32768) × (z < 274877906944) }
{
    // `as`: with u64::from the proof did not close
    let less = E as u64 - 1;
    let more = E as u64 + 1;
    let p = g.pow(E);
    g * (less * p + more * z) / (more * p + less * z + 1)
}

impl<const E: u32> Root<E> {
    // About the Eth root of y/a, for a quotient below 2³⁸. With (2ᴱ)ᵗ the power of 2ᴱ next above it, m is 64·z/(2ᴱ)ᵗ.
    fn guess(&self, starts: &[u16; 64]) -> u64 {
        let z = self.y.checked_div(self.a).unwrap_or(0) % 274877906944;
        let t = (63 + E - z.leading_zeros()) / E;
        let m = (64 * z) >> (E * t % 64);
        let start = u64::from(starts[(m % 64) as usize]);
        step::<E>((start << t) / 8192 % 32768, z)
    }

    // The root from a guess that is certified.
    pub fn find(&self, starts: &[u16; 64]) -> u64
        ensures { result ≡ greatest (power_at_most E self.now.a self.now.y) self.now.most }
    {
        self.near(self.guess(starts))
    }
}
