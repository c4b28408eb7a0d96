// The depth of the neutral axis, up to 10h by pairs of trials: document 01, "Equilibrium". A trial compares the internal force with N exactly and
// without a division. Beyond 10h it is that of the crate `beyond`: document 02, ticket 11. Each `as` is proved not to lose; i64::try_from would
// add an exit that never comes.
ghost use Rattle.std.specs.Prelude.{◌+◌, ◌*◌, ◌≤◌, ◌<◌, true, ◌≡◌, IfSome};
ghost use Rattle.arith.specs.Greatest.{greatest};
ghost use Rattle.arith.specs.Integer.{Within};
ghost use Rattle.section.specs.Code.Accepted.{layers_in, area_sum};
ghost use Rattle.section.specs.Code.Usable.{LayerOk};
ghost use Rattle.beyond.specs.Depth.{some_depth};
ghost use Rattle.equilibrium.specs.Refusals.{carries};
ghost use Rattle.equilibrium.specs.Depth.{face_depth, depth_for};
ghost use Rattle.equilibrium.specs.Accuracy.{DepthPromise, PromisedDepth};
ghost use Rattle.equilibrium.specs.Code.Whole.{lift_sum, carries_at_one, excess};

use super::balance::Balance;
use super::guess::chosen;
use super::resistance::Strained;
use super::{Depth, Loaded};
use refusals::Refusal;

// What is asked at a depth and at the next tenth.
#[derive(Clone, Copy)]
struct Pair<T> {
    at: T,
    next: T,
}

impl Pair<i64> {
    // Where the line through the excess at v and at v + 1 meets 0.
    fn tangent(&self, v: u64) -> i64
        requires { Within self.now.at 2028800000000000000 × (Within self.now.next 2028800000000000000 × (v ≤ 20000)) }
    {
        let slope = self.next - self.at;
        if slope < 1 {
            return v as i64;
        }
        if 0 < self.at {
            return v as i64 - (self.next - 1) / slope;
        }
        v as i64 - self.at / slope
    }
}

impl Balance<'_> {
    // The lift of all layers at v and at v + 1, by one walk over them.
    fn lifts(&self, v: u64) -> Pair<u64>
        requires { v < 20000 }
        ensures at { result.at ≡ lift_sum self.now.design.now self.now.layers.now v }
        ensures next { result.next ≡ lift_sum self.now.design.now self.now.layers.now (v + 1) }
    {
        let mut at: u64 = 0;
        let mut next: u64 = 0;
        let here = Strained {
            design: self.design,
            u: v,
        };
        let there = Strained {
            design: self.design,
            u: v + 1,
        };
        for l in self.layers {
            at += here.layer_lift(l);
            next += there.layer_lift(l);
        }
        Pair { at, next }
    }

    // What the internal force exceeds N by, at v and at v + 1, 80,000·u times.
    fn excesses(&self, v: u64) -> Pair<i64>
        requires { v < 20000 }
        ensures at { result.at ≡ excess self.now.design.now self.now.layers.now self.now.n v }
        ensures next { result.next ≡ excess self.now.design.now self.now.layers.now self.now.n (v + 1) }
    {
        let lifts = self.lifts(v);
        Pair {
            at: self.excess(lifts.at, v),
            next: self.excess(lifts.next, v + 1),
        }
    }

    // The greatest depth that carries, where 1 does: from lo to hi, as lo carries and nothing above hi does. A round tries a depth and the
    // next tenth, wherever the guess is: they are on both sides of the answer, or both are below it or both above.
    fn by_pairs(&self) -> u64
        // ("1 carries" is asked here and by those above: it is refusal 11, which the calls answer first, and no fact of the type.)
        requires { carries self.now.design.now self.now.layers.now self.now.n 1 ≡ true }
        ensures { result ≡ greatest (carries self.now.design.now self.now.layers.now self.now.n) (10 * self.now.design.now.h) }
    {
        let mut lo: u64 = 1;
        let mut hi: u64 = 10 * self.design.h;
        let mut guess = self.first_guess() as i64;
        // the first guess, six by the line, and then the middle
        let mut left: u64 = 7;
        while lo < hi {
            let v = chosen(guess, lo, hi);
            let p = self.excesses(v);
            left = left.saturating_sub(1);
            if 0 < p.at {
                hi = v - 1;
            } else if 0 < p.next {
                return v;
            } else {
                lo = v + 1;
            }
            guess = if left == 0 {
                ((lo + hi) / 2) as i64
            } else {
                p.tangent(v)
            };
        }
        lo
    }

    // The depth where 1 carries, or none where none up to 30h reaches N. Beyond 10h is looked only where the search ends at 10h and N is above the
    // internal force there.
    fn depth_above_one(&self) -> Option<u64>
        requires { carries_at_one self.now.design.now self.now.steel self.now.n ≡ true }
        ensures value { result ≡ some_depth (face_depth self.now.layers.now self.now.n self.now.design.now) }
        ensures promised { IfSome result (λ u. DepthPromise self.now.design.now self.now.layers.now self.now.n u) }
    {
        let most = 10 * self.design.h;
        let u = self.by_pairs();
        if u < most {
            return Some(u);
        }
        if self.excesses(most - 1).next < 0 {
            return beyond::search::least_reaching(self.design, self.layers, self.n);
        }
        Some(u)
    }
}

impl<'a> Loaded<'a> {
    // What the search weighs, made once.
    fn balance(&self) -> Balance<'a>
        ensures design { result.design.now ≡ self.now.face.now.design }
        ensures layers { result.layers.now ≡ layers_in self.now.face.now }
        ensures load { result.n ≡ self.now.n }
    {
        Balance {
            design: &self.face.design,
            layers: self.face.layers(),
            steel: self.face.steel_area(),
            n: self.n,
        }
    }

    // Is N at least the internal force at depth 1? There all steel is at −s/100, so no layer is asked, and both faces answer alike.
    pub fn carries_at_one(&self) -> bool
        ensures { result ≡ carries_at_one self.now.face.now.design (area_sum (layers_in self.now.face.now)) self.now.n }
    {
        self.balance().carries_at_one()
    }

    // The depth of a face whose depth 1 carries, or none where none up to 30h reaches N. Beyond 10h is looked only where the search ends at 10h
    // and N is above the internal force there.
    pub fn depth_above_one(&self) -> Option<u64>
        requires { carries_at_one self.now.face.now.design (area_sum (layers_in self.now.face.now)) self.now.n ≡ true }
        ensures value { result ≡ some_depth (face_depth (layers_in self.now.face.now) self.now.n self.now.face.now.design) }
        ensures promised { IfSome result (λ u. DepthPromise self.now.face.now.design (layers_in self.now.face.now) self.now.n u) }
    {
        self.balance().depth_above_one()
    }

    // The depth of an accepted section under N, with the face compressed from which its depths are measured; or 11 or 12. The trials of the
    // halving rule follow from the depth and h alone, so that no force is asked for them.
    pub fn depth(&self) -> Result<Depth, Refusal>
        ensures value { result ≡ depth_for self.now.face.now.design (layers_in self.now.face.now) self.now.n }
        ensures promised { PromisedDepth self.now.face.now.design (layers_in self.now.face.now) self.now.n result }
    {
        let balance = self.balance();
        Refusal::ForceTooLow.unless(balance.carries_at_one())?;
        let u = balance.depth_above_one().ok_or(Refusal::ForceTooHigh)?;
        let most = 10 * balance.design.h;
        Ok(if u <= most {
            Depth::At(u, arith::trials_to(u, most))
        } else {
            Depth::Beyond(u)
        })
    }
}
