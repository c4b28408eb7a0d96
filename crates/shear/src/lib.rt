// The shear resistance without shear reinforcement, 6.2.2(1): document 01, "Verdicts", the third, and 02's ticket 8. It takes plain
// numbers, so it rests on the arithmetic alone. Each `as` is proved not to lose; try_from would add an exit that never comes.

#![tactic(auto)]

mod guess;
mod power;
mod size;

ghost use Rattle.std.specs.Prelude.{◌≡◌, ◌≤◌};
ghost use Rattle.arith.specs.Integer.{Within};
ghost use Rattle.shear.specs.Shear.{r, q, v, c, concrete_share, axial_share, VRdc};

use guess::{CUBE_STARTS, SQUARE_STARTS};
use power::Root;
use size::size_factor;
use std::marker::Model;

// All that VRd,c is found from: the section's b and h in mm, the concrete's fck in N/mm², its g in hundredths of N/mm² and crd, 100 times
// CRd,c, the load's N in newtons, and the tension layers' area in mm² and mean depth in mm. A clause sees it under 01's letters.
#[derive(Drop)]
pub struct Sheared {
    pub b: u64,
    pub h: u64,
    pub fck: u64,
    pub g: u64,
    pub crd: u64,
    pub n: i64,
    pub area: u64,
    pub dm: u64,
}

impl Model for Sheared {
    ghost use Rattle.shear.specs.Shear.{Sheared};

    ghost Value = { Sheared };

    ghost use Rattle.shear.specs.Code.Ranges.{ShearBounds};

    ghost view = { λ x. record { b = x.b; h = x.h; fck = x.fck; g = x.g; crd = x.crd; N = x.n; As = x.area; dm = x.dm } };

    ghost invariant = { λ x. ShearBounds record { b = x.b; h = x.h; fck = x.fck; g = x.g; crd = x.crd; N = x.n; As = x.area; dm = x.dm } };
}

// q, of (6.3N).
fn least_root(fck: u64, k: u64) -> u64
    requires { (fck ≤ 90) × (k ≤ 2000) }
    ensures { result ≡ q fck k }
{
    let root = Root::<2> {
        a: 1000,
        y: fck * k.pow(3),
        most: 26832,
    };
    root.find(&SQUARE_STARTS)
}

impl Sheared {
    // r, from the longitudinal reinforcement ratio As/(b·dm), which counts up to 0.02.
    fn ratio_root(&self) -> u64
        ensures { result ≡ r self.now.b self.now.fck self.now.As self.now.dm }
    {
        let concrete = self.b * self.dm;
        let rich = concrete < 50 * self.area;
        let a = arith::either(rich, 1, concrete);
        let y = arith::either(
            rich,
            2000000000 * self.fck,
            100000000000 * self.area * self.fck,
        );
        let root = Root::<3> { a, y, most: 5646 };
        root.find(&CUBE_STARTS)
    }

    // v, the stress that the concrete carries.
    fn concrete_stress(&self) -> u64
        ensures { result ≡ v self.now.crd self.now.b self.now.fck self.now.As self.now.dm }
    {
        let k = size_factor(self.dm);
        let stress = self.crd * k * self.ratio_root() / 100;
        stress.max(35 * least_root(self.fck, k))
    }

    // v·b·dm/1,000,000 in newtons.
    fn concrete_share(&self) -> u64
        ensures { result ≡ concrete_share self.now.crd self.now.b self.now.fck self.now.As self.now.dm }
    {
        self.concrete_stress() * self.b * self.dm / 1000000
    }

    // c: N, but no more than 0.2·g on the whole section.
    fn counted_force(&self) -> i64
        ensures value { result ≡ c self.now.N self.now.g self.now.b self.now.h }
        ensures small { Within result 500000000 }
    {
        self.n.min((self.g * self.b * self.h / 500) as i64)
    }

    // 15·c·dm/(100·h) in newtons, rounded down below zero too.
    fn axial_share(&self) -> i64
        ensures { result ≡ axial_share (c self.now.N self.now.g self.now.b self.now.h) self.now.dm self.now.h }
    {
        arith::floor_div(
            15 * self.counted_force() * self.dm as i64,
            (100 * self.h) as i64,
        )
    }

    // VRd,c in newtons: no less than 0.
    pub fn resistance(&self) -> u64
        ensures { result ≡ VRdc self.now }
    {
        // With no tension layer As, dm and the shear resistance are 0: document 01, "Verdicts". As is a number there, and an Option would be a
        // second form of it.
        if self.area < 1 {
            return 0;
        }
        let sum = self.concrete_share() as i64 + self.axial_share();
        sum.max(0) as u64
    }
}
