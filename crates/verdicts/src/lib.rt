// Tension reinforcement, and verdicts one to five in document 01's sequence; the first as 02's ticket 1 has it. The sixth stands with the
// links, in the clauses. It takes plain numbers and layers.

#![tactic(auto)]

pub mod tension;

ghost use Rattle.std.specs.Prelude.{◌≡◌, ◌≤◌};
ghost use Rattle.arith.specs.Integer.{Within};
ghost use Rattle.verdicts.specs.Verdicts.{number_of, judged, reached, first, second, third, fourth, fifth};
ghost use Rattle.verdicts.specs.Code.Ranges.{LeastBounds};

use tension::Reinforcement;

// What a clause says of the section: 0, 1 and 2 of document 01.
#[derive(Clone, Copy, Debug, PartialEq, Eq)]
pub enum Verdict {
    Pass = 0,
    Fail = 1,
    NotReached = 2,
}

impl Verdict {
    // Document 01's number. (By name, where a `From` would not say which number it is.)
    pub fn number(self) -> u64
        ensures { result ≡ number_of self }
    {
        self as u64
    }
}

// (By name: a `From` of a truth value would not say which of the two it is that passes.)
pub fn judge(passes: bool) -> Verdict
    ensures { result ≡ judged passes }
{
    if passes { Verdict::Pass } else { Verdict::Fail }
}

// One, 6.1: −MRd of the bottom ≤ M ≤ MRd of the top. M is negated and not a resistance: its range is known here.
pub fn moment_verdict(m: i64, top: i64, bottom: i64) -> Verdict
    requires { Within m 1000000000000 }
    ensures { result ≡ first m top bottom }
{
    judge(m <= top && -m <= bottom)
}

// The verdicts that ask for tension reinforcement: with area 0, which document 01 gives where no layer is in tension, they are not reached.
impl Reinforcement {
    fn judge(self, passes: bool) -> Verdict
        ensures { result ≡ reached self.area (judged passes) }
    {
        if self.area < 1 {
            Verdict::NotReached
        } else {
            judge(passes)
        }
    }

    // Two, 5.6.3(2): the depth of the neutral axis, u in tenths of a millimetre.
    pub fn depth_verdict(self, fck: u64, u: u64) -> Verdict
        requires { (u ≤ 60000) × (self.depth ≤ 1999) }
        ensures { result ≡ second fck u self.area self.depth }
    {
        let share = if fck <= 50 { 45 } else { 35 };
        self.judge(10 * u <= share * self.depth)
    }

    // Three, 6.2.2: the shear resistance.
    pub fn shear_verdict(self, v: i64, vrd: u64) -> Verdict
        ensures { result ≡ third v vrd self.area }
    {
        self.judge(v.unsigned_abs() <= vrd)
    }

    // Four, 9.2.1.1(1): the least tension reinforcement.
    pub fn least_verdict(self, t: u64, fyk: u64, b: u64) -> Verdict
        requires { LeastBounds t fyk b self.area self.depth }
        ensures { result ≡ fourth t fyk b self.area self.depth }
    {
        let by_strength = 26 * t * b * self.depth <= 1000 * self.area * fyk;
        let by_section = 13 * b * self.depth <= 10000 * self.area;
        self.judge(by_strength && by_section)
    }
}

// Five, 9.2.1.1(3): the most reinforcement, tension and compression.
pub fn most_verdict(all: u64, b: u64, h: u64) -> Verdict
    requires { (all ≤ 320000) × ((b ≤ 2000) × (h ≤ 2000)) }
    ensures { result ≡ fifth all b h }
{
    judge(25 * all <= b * h)
}
