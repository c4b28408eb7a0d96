// What the parts of a section carry at a whole depth beyond 10h: document 02, ticket 11. No stress is below 0 there, so a layer's force is a
// natural over a natural; with the yielding and the free arm apart no product is above 64 bits. Each `as` is proved not to lose; i64::try_from
// would add an exit that never comes.
ghost use Rattle.std.specs.Prelude.{◌≤◌, ◌≡◌, pos};
ghost use Rattle.arith.specs.Fraction.{floor};
ghost use Rattle.section.specs.Code.Usable.{Bounded, LayerOk};
ghost use Rattle.beyond.specs.Force.{concrete_force, layer_force, layer_moment};
ghost use Rattle.beyond.specs.Code.Range.{Beyond};
ghost use Rattle.beyond.specs.Code.Whole.{block, concrete_newtons, under, rise, share_of, layer_newtons};

use section::{Design, Layer};

// A layer's force, not rounded: p/q newtons.
#[derive(Clone, Copy)]
struct Share {
    p: u64,
    q: u64,
}

// The block's depth in 1/800 mm, at most that of the section: at every depth up to 30h, up to 10h too. (Of a bare
// design: `Strained` lies beyond 10h.)
pub fn block_at(x: &Design, u: u64) -> u64
    requires { Bounded x.now × (u ≤ 60000) }
    ensures { result ≡ block x.now u }
{
    (x.m.l * u).min(800 * x.h)
}

// A section that is compressed over its full height: its neutral axis lies at the depth u, beyond 10h and up to 30h.
#[derive(Clone, Copy)]
pub struct Strained<'a> {
    pub design: &'a Design,
    pub u: u64,
    pub ghost bounded: { Bounded design.now },
    pub ghost beyond: { Beyond design.now u },
}

impl Strained<'_> {
    // The concrete's force, rounded down.
    #[tactic(auto, using(crate::proofs::Sizes::concrete_facts), unfolding(crate::specs::Code::Whole::concrete_newtons))]
    pub fn concrete_force(&self) -> u64
        ensures value { pos result ≡ floor (concrete_force self.now.design.now self.now.u) }
        ensures newtons { (result ≡ concrete_newtons self.now.design.now self.now.u) × (result ≤ 240000000) }
    {
        let x = self.design;
        x.m.f * x.b * block_at(x, self.u) / 80000
    }

    // D·E·(u − 10d), above the line.
    fn rise(&self, depth: u32) -> u64
        requires { depth ≤ self.now.design.now.h }
        ensures { (result ≡ rise self.now.design.now depth self.now.u) × (result ≤ 19320000000) }
    {
        let x = self.design;
        x.m.d * x.m.e * (self.u - 10 * u64::from(depth))
    }

    // E·u − 10·(E − D)·h, below it.
    #[tactic(auto, using(crate::proofs::Sizes::line_sizes))]
    fn under(&self) -> u64
        ensures { (result ≡ under self.now.design.now self.now.u) × ((1 ≤ result) × (result ≤ 42000000)) }
    {
        let x = self.design;
        x.m.e * self.u - 10 * (x.m.e - x.m.d) * x.h
    }

    // LayerOk stays a clause, here and below: a struct that kept it would hold the layer and h, be made anew for each layer, and be no plainer.
    #[tactic(auto, using(crate::proofs::Whole::held_arm, crate::proofs::Whole::free_arm))]
    fn share(&self, l: &Layer) -> Share
        requires { LayerOk self.now.design.now.h l.now }
        ensures { result ≡ share_of self.now.design.now l.now self.now.u }
    {
        let p = self.rise(l.depth);
        let q = self.under();
        let s = self.design.m.s;
        let area = u64::from(l.area);
        if s * q <= 100 * p {
            Share {
                p: area * s,
                q: 100,
            }
        } else {
            Share { p: area * p, q }
        }
    }

    // A layer's force, rounded down.
    #[tactic(auto, using(crate::proofs::Sizes::layer_facts), unfolding(crate::specs::Code::Whole::layer_newtons))]
    pub fn layer_force(&self, l: &Layer) -> u64
        requires { LayerOk self.now.design.now.h l.now }
        ensures value { pos result ≡ floor (layer_force self.now.design.now l.now self.now.u) }
        ensures newtons { (result ≡ layer_newtons self.now.design.now l.now self.now.u) × (result ≤ 12000000) }
    {
        let t = self.share(l);
        t.p / t.q
    }

    // A layer's moment, from its unrounded force, rounded down by itself.
    #[tactic(auto, using(crate::proofs::Sizes::share_facts))]
    pub fn layer_moment(&self, l: &Layer) -> i64
        requires { LayerOk self.now.design.now.h l.now }
        ensures { result ≡ floor (layer_moment self.now.design.now l.now self.now.u) }
    {
        let t = self.share(l);
        let arm = self.design.h as i64 - 2 * i64::from(l.depth);
        arith::floor_div(t.p as i64 * arm, 2 * t.q as i64)
    }
}
