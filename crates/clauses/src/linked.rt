// What Check says of the links: 6.2.3 and 9.2.2, document 02, ticket 3.
ghost use Rattle.std.specs.Prelude.{◌≡◌, ◌≤◌};
ghost use Rattle.clauses.specs.Linked.{link_report, linked_report};

use super::check::Checking;
use links::Truss;
use verdicts::tension::Reinforcement;
use verdicts::{Verdict, judge};

// The strut's cotangent in tenths, the links' resistance in newtons, and verdict six. (The figures are 0 where it is not reached, as the documents and
// C have them: so no Option, and no `Strut` with a verdict beside it, since one of zeros is no strut.)
#[derive(Clone, Copy)]
pub struct LinkReport {
    pub cotangent: u64,
    pub resistance: u64,
    pub verdict: Verdict,
}

// Links that are present, beside tension layers.
fn present_links(x: &Truss, v: i64) -> LinkReport
    ensures { result ≡ link_report x.now v }
{
    let strut = x.best_strut();
    let passes = v.unsigned_abs() <= strut.resistance && x.spacing_ok() && x.ratio_ok();
    LinkReport {
        cotangent: strut.cotangent,
        resistance: strut.resistance,
        verdict: judge(passes),
    }
}

impl Checking<'_> {
    // The links, beside the tension reinforcement t. Without links or without tension layers verdict six is not reached.
    pub fn link_report(&self, t: Reinforcement) -> LinkReport
        requires { t.depth ≤ 1999 }
        ensures { result ≡ linked_report self.now.face.now.design self.now.links.now self.now.load.now.v t.area t.depth }
    {
        let k = self.links;
        if k.present == 0 || t.area == 0 {
            return LinkReport {
                cotangent: 0,
                resistance: 0,
                verdict: Verdict::NotReached,
            };
        }
        let x = &self.face.design;
        let truss = Truss {
            b: x.b,
            fck: x.m.fck,
            fyk: x.m.fyk,
            g: x.m.g,
            s: x.m.s,
            dm: t.depth,
            area: u64::from(k.area),
            spacing: u64::from(k.spacing),
        };
        present_links(&truss, self.load.v)
    }
}
