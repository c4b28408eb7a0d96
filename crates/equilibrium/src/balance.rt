// What the internal force is made of, 80,000 times: the concrete, N with the steel in tension, and the lift of the layers. Each `as` is proved not
// to lose; i64::try_from would add an exit that never comes.
ghost use Rattle.std.specs.Prelude.{◌*◌, ◌≤◌, ◌≡◌, length};
ghost use Rattle.arith.specs.Integer.{Within};
ghost use Rattle.section.specs.Code.Usable.{Bounded, Usable};
ghost use Rattle.section.specs.Code.Accepted.{area_sum};
ghost use Rattle.equilibrium.specs.Code.Whole.{lift_sum, rest_at, carries_at_one, excess};

use section::{Design, Layer};

// A face under N whose depth is looked for. The area of its steel is summed once.
#[derive(Clone, Copy)]
pub struct Balance<'a> {
    pub design: &'a Design,
    pub layers: &'a [Layer],
    pub steel: u64,
    pub n: i64,
    pub ghost usable: { Usable design.now (length layers.now) layers.now },
    pub ghost area: { steel ≡ area_sum layers.now },
    pub ghost steel_high: { steel ≤ 320000 },
    pub ghost load: { Within n 500000000 },
}

// f·L·b: 80,000 times the force of the concrete for each tenth of its depth. (These three are of a bare design: `carries_at_one` asks no more than
// its bounds, so it can take no `Balance`, which hands on to it.)
fn concrete_of(x: &Design) -> u64
    requires { Bounded x.now }
    ensures { result ≡ x.now.m.f * x.now.m.l * x.now.b }
{
    x.m.f * x.m.l * x.b
}

// 80,000·N and what so much steel carries in tension.
fn rest_of(x: &Design, steel: u64, n: i64) -> i64
    requires { Bounded x.now × ((steel ≤ 320000) × Within n 500000000) }
    ensures { result ≡ rest_at x.now steel n }
{
    80000 * n + (800 * x.m.s * steel) as i64
}

// Is N at least the internal force at depth 1? There all steel is at −s/100, so no layer is asked, and both faces answer alike.
pub fn carries_at_one(x: &Design, steel: u64, n: i64) -> bool
    requires { Bounded x.now × ((steel ≤ 320000) × Within n 500000000) }
    ensures { result ≡ carries_at_one x.now steel n }
{
    concrete_of(x) as i64 <= rest_of(x, steel, n)
}

impl Balance<'_> {
    pub fn concrete(&self) -> u64
        ensures { result ≡ self.now.design.now.m.f * self.now.design.now.m.l * self.now.design.now.b }
    {
        concrete_of(self.design)
    }

    pub fn rest(&self) -> i64
        ensures { result ≡ rest_at self.now.design.now self.now.steel self.now.n }
    {
        rest_of(self.design, self.steel, self.n)
    }

    pub fn carries_at_one(&self) -> bool
        ensures { result ≡ carries_at_one self.now.design.now self.now.steel self.now.n }
    {
        carries_at_one(self.design, self.steel, self.n)
    }

    // 80,000·u times what the internal force exceeds N by, from the lift of all layers there.
    pub fn excess(&self, lift: u64, u: u64) -> i64
        requires { (lift ≡ lift_sum self.now.design.now self.now.layers.now u) × (u ≤ 20000) }
        ensures { result ≡ excess self.now.design.now self.now.layers.now self.now.n u }
    {
        ((self.concrete() * u) as i64 - self.rest()) * (u as i64) + (800 * lift) as i64
    }
}
