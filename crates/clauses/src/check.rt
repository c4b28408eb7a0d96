// Check: depths and moment resistances of both faces, and the verdicts. Document 01, "Verdicts", and 02's tickets 1, 3 and 11.
ghost use Rattle.std.specs.Prelude.{true, ◌≡◌, IfOk};
ghost use Rattle.std.specs.Result.{result_err};
ghost use Rattle.refusals.specs.Chain.{test};
ghost use Rattle.refusals.specs.declared.Refusal.TheVariants.{ForceTooHigh};
ghost use Rattle.section.specs.Code.Usable.{LoadOk, LinksOk};
ghost use Rattle.section.specs.Code.Accepted.{layers_in, area_sum};
ghost use Rattle.section.specs.Turned.{turned};
ghost use Rattle.equilibrium.specs.Refusals.{reaches};
ghost use Rattle.equilibrium.specs.Depth.{face_depth};
ghost use Rattle.equilibrium.specs.Code.Whole.{DepthRange, carries_at_one};
ghost use Rattle.clauses.specs.Check.{face_at, report_of, check_faces};

use super::{Face, Report};
use equilibrium::Loaded;
use equilibrium::resistance::moment_resistance;
use refusals::Refusal;
use section::{Accepted, Links, Load};
use shear::Sheared;
use verdicts::tension::tension_reinforcement;
use verdicts::{Verdict, moment_verdict, most_verdict};

// An accepted section as one of its faces sees it, with links and under a load that passed their tests. (Links as a section and a record have them,
// with `present` in them: an Option of the two numbers would be a second form of the same, made for `link_report` alone.)
#[derive(Clone, Copy)]
pub struct Checking<'a> {
    pub face: &'a Accepted,
    pub links: &'a Links,
    pub load: &'a Load,
    pub ghost loaded: { LoadOk load.now },
    pub ghost linked: { LinksOk links.now load.now },
}

impl Checking<'_> {
    // The same under N alone.
    fn under_force(&self) -> Loaded<'_>
        ensures face { result.face.now ≡ self.now.face.now }
        ensures force { result.n ≡ self.now.load.now.n }
    {
        Loaded {
            face: self.face,
            n: self.load.n,
        }
    }

    // This face at its depth; or 12, where depth 1 carries: that is asked once for both faces, by `report`.
    fn face(&self) -> Result<Face, Refusal>
        requires { carries_at_one self.now.face.now.design (area_sum (layers_in self.now.face.now)) self.now.load.now.n ≡ true }
        ensures refusal { result_err result ≡ test ForceTooHigh
            (reaches self.now.face.now.design (layers_in self.now.face.now) self.now.load.now.n) }
        ensures value { IfOk result (λ f. f ≡ face_at self.now.face.now.design (layers_in self.now.face.now)
            (face_depth (layers_in self.now.face.now) self.now.load.now.n self.now.face.now.design)) }
        ensures depth_range { IfOk result (λ f. DepthRange self.now.face.now.design f.u) }
    {
        let loaded = self.under_force();
        let u = loaded.depth_above_one().ok_or(Refusal::ForceTooHigh)?;
        let mrd = moment_resistance(self.face, u);
        Ok(Face { u, mrd })
    }

    // What is reported where M compresses this face, beside the other face and verdict one. (`Face` is a struct for C, so the range of
    // its depth is a clause.)
    fn report_of(&self, face: Face, other: Face, moment: Verdict) -> Report
        requires { DepthRange self.now.face.now.design face.u }
        ensures { result ≡ report_of self.now.face.now.design (layers_in self.now.face.now) self.now.links.now
            self.now.load.now face other moment }
    {
        let x = &self.face.design;
        let l = self.load;
        let u = face.u;
        let t = tension_reinforcement(self.face.layers(), u);
        let sheared = Sheared {
            b: x.b,
            h: x.h,
            fck: x.m.fck,
            g: x.m.g,
            crd: x.m.crd,
            n: l.n,
            area: t.area,
            dm: t.depth,
        };
        let vrd = sheared.resistance();
        let linked = self.link_report(t);
        Report {
            u,
            mrd: face.mrd,
            other,
            vrd,
            dm: t.depth,
            area: t.area,
            cotangent: linked.cotangent,
            resistance: linked.resistance,
            moment,
            depth: t.depth_verdict(x.m.fck, u),
            shear: t.shear_verdict(l.v, vrd),
            least: t.least_verdict(x.m.t, x.m.fyk, x.b),
            most: most_verdict(self.face.steel_area(), x.b, x.h),
            links: linked.verdict,
        }
    }

    // Check, of a section as its top sees it: 11, asked once for both faces; 12 of either; or the report. The bottom sees the section turned
    // over.
    pub fn report(&self) -> Result<Report, Refusal>
        ensures { result ≡ check_faces self.now.face.now.design (layers_in self.now.face.now)
            (turned self.now.face.now.design.h (layers_in self.now.face.now)) self.now.links.now self.now.load.now }
    {
        let carried = self.under_force().carries_at_one();
        Refusal::ForceTooLow.unless(carried)?;
        let turned = self.face.turned_over();
        let bottom = Checking {
            face: &turned,
            links: self.links,
            load: self.load,
        };
        let high = self.face()?;
        let low = bottom.face()?;
        let moment = moment_verdict(self.load.m, high.mrd, low.mrd);
        if 0 <= self.load.m {
            Ok(self.report_of(high, low, moment))
        } else {
            Ok(bottom.report_of(low, high, moment))
        }
    }
}
