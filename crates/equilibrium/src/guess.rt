// Where the search for a depth begins. Nothing rests on a guess, which is tried whatever it is: of these functions nothing is shown but
// that no number overflows, and that what `chosen` and `first_guess` answer is a candidate. Each `as` is proved not to lose; i64::try_from
// would add an exit that never comes.
ghost use Rattle.std.specs.Prelude.{◌*◌, ◌≤◌, ◌<◌};
ghost use Rattle.arith.specs.Integer.{Within};

use super::balance::Balance;

// A guess, held within lo and hi - 1. (A depth is a bare number, with its bound in the clause, here and in the search: a struct for it would be
// opened in each sum.)
pub fn chosen(guess: i64, lo: u64, hi: u64) -> u64
    requires { (lo < hi) × (hi ≤ 20000) }
    ensures { (lo ≤ result) × (result < hi) }
{
    guess.clamp(lo as i64, (hi - 1) as i64) as u64
}

// The excess for steel that lies all at one depth and does not yield: concrete·v² + fall·v − lean.
#[derive(Clone, Copy)]
struct Lumped {
    concrete: u64,
    fall: i64,
    lean: u64,
    ghost concrete_high: { concrete ≤ 768000000 },
    ghost fall_in: { Within fall 88640000000000 },
    ghost lean_high: { lean ≤ 700000000000000000 },
}

impl Lumped {
    // One step of Newton's rule from v towards its zero.
    fn nearer(&self, v: u64) -> i64
        requires { v ≤ 20000 }
    {
        let slope = (2 * self.concrete * v) as i64 + self.fall;
        if slope < 1 {
            return v as i64;
        }
        (self.concrete * v * v + self.lean) as i64 / slope
    }
}

impl Balance<'_> {
    // The first moment of the layers' area about the compressed face.
    fn first_moment(&self) -> u64
        ensures { result ≤ 640000000 }
    {
        let mut sum: u64 = 0;
        for l in self.layers {
            sum += u64::from(l.area) * u64::from(l.depth);
        }
        sum
    }

    // What the excess gains with each tenth by the lift of all steel, while that does not yield.
    fn climb(&self) -> u64
        ensures { result ≤ 33280000000000 }
    {
        let m = &self.design.m;
        800 * (100 * m.e + m.s) * self.steel
    }

    // What the excess lacks at depth 0, for steel with this first moment.
    fn lean(&self) -> u64
        ensures { result ≤ 700000000000000000 }
    {
        800000 * self.design.m.e * self.first_moment()
    }

    // Where all steel, put at its mean depth, is in equilibrium with the concrete. The first of these depths is the one at which the concrete
    // carries N with all steel yielded in tension, and two steps lead from there where it does not yield. One layer is its own mean, so that a
    // third step mostly finds its depth.
    pub fn first_guess(&self) -> u64
        ensures { (1 ≤ result) × (result < 10 * self.now.design.now.h) }
    {
        let rest = self.rest();
        let climb = self.climb();
        let lumped = Lumped {
            concrete: self.concrete(),
            fall: climb as i64 - rest,
            lean: self.lean(),
        };
        let most = 10 * self.design.h;
        let v = chosen(rest / lumped.concrete as i64, 1, most);
        if climb * v <= lumped.lean {
            return v;
        }
        let w = chosen(lumped.nearer(v), 1, most);
        let z = chosen(lumped.nearer(w), 1, most);
        if 1 < self.layers.len() {
            return z;
        }
        chosen(lumped.nearer(z), 1, most)
    }
}
