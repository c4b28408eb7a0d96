// The least depth beyond 10h that reaches N: document 02, ticket 11. The internal force need not rise with the depth there, so halving would
// be wrong. But the concrete and each layer that lies no nearer the compressed face than the point that the strain line turns about never fall,
// and each other layer never rises: over the depths from a to b no force exceeds those that rise, at b, and those that fall, at a. The one
// `as` is proved not to lose; i64::try_from would add an exit that never comes.
ghost use Rattle.std.specs.Prelude.{◌≤◌, ◌≡◌, pos, length};
ghost use Rattle.std.specs.Int.Signed.{lt_z};
ghost use Rattle.section.specs.Code.Usable.{LayerOk, Usable};
ghost use Rattle.beyond.specs.Depth.{least_reaching, some_depth};
ghost use Rattle.beyond.specs.Code.Range.{Interval};
ghost use Rattle.beyond.specs.Code.Bound.{rises, most, bound};
ghost use Rattle.beyond.specs.Code.Whole.{layer_newtons};

use super::force::Strained;
use section::{Design, Layer};

// The depths from a to b, all of them beyond 10h and up to 30h, of a section that passed its tests.
#[derive(Clone, Copy)]
struct Depths<'a> {
    design: &'a Design,
    layers: &'a [Layer],
    a: u64,
    b: u64,
    ghost interval: { Interval design.now (length layers.now) layers.now a b },
}

impl Depths<'_> {
    // Does the force of a layer at this depth never fall with u?
    fn rises(&self, depth: u32) -> bool
        requires { depth ≤ self.now.design.now.h }
        ensures { result ≡ rises self.now.design.now depth }
    {
        let x = self.design;
        (x.m.e - x.m.d) * x.h <= x.m.e * u64::from(depth)
    }

    // A layer's greatest force: at b where it never falls, else at a. (`LayerOk` by a clause, as in force.rt.)
    fn layer_most(&self, l: &Layer) -> u64
        requires { LayerOk self.now.design.now.h l.now }
        ensures { (result ≡ layer_newtons self.now.design.now l.now (most self.now.design.now l.now.depth self.now.a self.now.b)) × (result ≤ 12000000) }
    {
        let u = if self.rises(l.depth) { self.b } else { self.a };
        let strained = Strained {
            design: self.design,
            u,
        };
        strained.layer_force(l)
    }

    // What no internal force exceeds; of one depth, its internal force.
    #[tactic(auto, using(crate::proofs::Bounds::next_newtons))]
    fn bound(&self) -> u64
        ensures { (pos result ≡ bound self.now.design.now self.now.layers.now self.now.a self.now.b) × (result ≤ 432000000) }
    {
        let at_b = Strained {
            design: self.design,
            u: self.b,
        };
        let mut sum = at_b.concrete_force();
        for l in self.layers {
            sum += self.layer_most(l);
        }
        sum
    }

    // Does no internal force reach n, so that these depths can be skipped whole?
    fn short_of(&self, n: i64) -> bool
        ensures { result ≡ lt_z (bound self.now.design.now self.now.layers.now self.now.a self.now.b) n }
    {
        (self.bound() as i64) < n
    }
}

// The least depth, or none where none reaches N. An interval whose bound is below N is skipped whole, and the next is twice as wide; else its
// first quarter is tried, down to one depth.
#[tactic(auto, using(crate::proofs::Intervals::search_facts))]
pub fn least_reaching(x: &Design, layers: &[Layer], n: i64) -> Option<u64>
    requires { Usable x.now (length layers.now) layers.now }
    ensures { result ≡ some_depth (least_reaching x.now layers.now n) }
{
    let end = 30 * x.h;
    let mut a = 10 * x.h + 1;
    let mut b = end;
    while a <= end {
        let depths = Depths {
            design: x,
            layers,
            a,
            b,
        };
        if depths.short_of(n) {
            let next = b + 1;
            b = (next + 2 * (b - a) + 1).min(end);
            a = next;
        } else if a == b {
            return Some(a);
        } else {
            b = a + (b - a) / 4;
        }
    }
    None
}
