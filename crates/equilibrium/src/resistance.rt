// The stress of the layers and the moment resistance MRd at a whole depth: document 01, "Equilibrium". Beyond 10h a layer's moment is that of 02's
// ticket 11; the block and the sum over the layers are the same. Each `as` is proved not to lose; i64::try_from would add an exit that never comes.
ghost use Rattle.std.specs.Prelude.{◌*◌, ◌≤◌, ◌≡◌, pos};
ghost use Rattle.arith.specs.Fraction.{floor};
ghost use Rattle.section.specs.Code.Accepted.{layers_in};
ghost use Rattle.section.specs.Code.Usable.{Bounded, LayerOk};
ghost use Rattle.beyond.specs.Code.Whole.{block_moment};
ghost use Rattle.equilibrium.specs.Force.{at, layer_moment};
ghost use Rattle.equilibrium.specs.Moment.{resistance_at};
ghost use Rattle.equilibrium.specs.Code.Whole.{DepthRange, lift_at, layer_moment_at, BlockBounds};

use section::{Accepted, Design, Layer};

// A section whose neutral axis lies at the depth u, at most 10h of the greatest h. (That beyond 10h is `beyond::force::Strained`: other formulas and
// another range.) A layer's stress is counted from the least, −s/100.
#[derive(Clone, Copy)]
pub struct Strained<'a> {
    pub design: &'a Design,
    pub u: u64,
    pub ghost bounded: { Bounded design.now },
    pub ghost u_high: { u ≤ 20000 },
}

impl Strained<'_> {
    // 100·u times what the stress at a depth lies above −s/100: E·(u − 10d)/u, held within ±s/100, and moved up by s/100.
    fn lift(&self, depth: u32) -> u64
        requires { depth ≤ 2000 }
        ensures { result ≡ lift_at self.now.design.now self.now.u depth }
    {
        let m = &self.design.m;
        let climb = (100 * m.e + m.s) * self.u;
        let start = 1000 * m.e * u64::from(depth);
        climb.saturating_sub(start).min(2 * m.s * self.u)
    }

    // A layer's area times its lift.
    pub fn layer_lift(&self, l: &Layer) -> u64
        requires { (l.now.depth ≤ 2000) × (l.now.area ≤ 20000) }
        ensures { result ≡ l.now.area * lift_at self.now.design.now self.now.u l.now.depth }
    {
        u64::from(l.area) * self.lift(l.depth)
    }

    // A layer's moment up to 10h, rounded down by itself: A·(100u·stress)·(h − 2d)/200u. (`LayerOk` by a clause, as in beyond's force.rt.)
    fn layer_moment(&self, l: &Layer) -> i64
        requires { (1 ≤ self.now.u) × LayerOk self.now.design.now.h l.now }
        ensures { result ≡ floor (layer_moment self.now.design.now l.now (at self.now.u)) }
    {
        let stress = self.lift(l.depth) as i64 - (self.design.m.s * self.u) as i64;
        let arm = self.design.h as i64 - 2 * i64::from(l.depth);
        arith::floor_div(i64::from(l.area) * stress * arm, 200 * self.u as i64)
    }
}

// The moment of the concrete, rounded down, for a block of the depth k in 1/800 mm: k is L·u, at most 800h. So ordered, no product is
// above 64 bits, as k·(800h − k) is at most (400h)².
#[tactic(auto, using(crate::proofs::Sizes::block_sizes))]
fn concrete_moment(x: &Design, k: u64) -> i64
    requires { BlockBounds x.now.m.f x.now.b x.now.h k }
    ensures { result ≡ pos (block_moment x.now.m.f x.now.b x.now.h k) }
{
    (x.m.f * x.b * (k * (800 * x.h - k)) / 128000000) as i64
}

// A layer's moment at a depth up to 30h, by the page that it belongs to. (By clauses: it makes one of two `Strained`, and the layer is one of many.)
fn layer_moment_at(x: &Design, l: &Layer, u: u64) -> i64
    requires { Bounded x.now × (DepthRange x.now u × LayerOk x.now.h l.now) }
    ensures { result ≡ layer_moment_at x.now l.now u }
{
    if u <= 10 * x.h {
        Strained { design: x, u }.layer_moment(l)
    } else {
        beyond::force::Strained { design: x, u }.layer_moment(l)
    }
}

// MRd of an accepted section at a depth up to 30h. (The range is asked of a bare number here, above, and by `report_of` of the clauses: a struct for
// a depth and its section would be made for one call.)
pub fn moment_resistance(face: &Accepted, u: u64) -> i64
    requires { DepthRange face.now.design u }
    ensures { result ≡ resistance_at face.now.design (layers_in face.now) u }
{
    let x = &face.design;
    let mut sum = concrete_moment(x, beyond::force::block_at(x, u));
    for l in face.layers() {
        sum += layer_moment_at(x, l, u);
    }
    sum
}
