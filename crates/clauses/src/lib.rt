// What the clauses of EN 1992-1-1 say of a section and its load: document 01, "Verdicts", and 02's tickets 1, 3, 9 and 11.

#![tactic(auto)]

mod check;
mod linked;
pub mod numbers;

ghost use Rattle.std.specs.Prelude.{◌≡◌};
ghost use Rattle.std.specs.Result.{result_err};
ghost use Rattle.refusals.specs.Chain.{first_failing};
ghost use Rattle.section.specs.Section.{counted, links_of};
ghost use Rattle.section.specs.Altered.{altered};
ghost use Rattle.clauses.specs.Refusals.{check_tests, trial_tests};
ghost use Rattle.clauses.specs.Check.{check_of};
ghost use Rattle.clauses.specs.Trial.{trial_of};
ghost use Rattle.clauses.specs.Accuracy.{AccurateCheck};
ghost use Rattle.clauses.specs.Best.{BestLinks};

use check::Checking;
use refusals::Refusal;
use section::acceptance::{accept, counted_links, test_load_and_links};
use section::{Layer, Load, Section};
use verdicts::Verdict;

// A face under N: the depth of the neutral axis in tenths of a millimetre from that face, up to 10h or beyond it, and MRd in N·mm with it
// compressed.
#[repr(C)]
#[derive(Clone, Copy)]
pub struct Face {
    pub u: u64,
    pub mrd: i64,
}

// What Check finds of an accepted section and load: depth of the neutral axis and MRd of the face that M compresses, the same of
// the other face, VRd,c in newtons, dm and As in mm and mm², of the links the strut's cotangent in tenths and the resistance in newtons,
// and the verdicts in the documents' sequence. Here they stand by name, and in `Listed` as one array of their numbers. (u and MRd are no `Face`, which
// the other face's are: document 01 lists the two among the rest, and so does `Listed`.)
#[derive(Clone, Copy)]
pub struct Report {
    pub u: u64,
    pub mrd: i64,
    pub other: Face,
    pub vrd: u64,
    pub dm: u64,
    pub area: u64,
    pub cotangent: u64,
    pub resistance: u64,
    // 6.1
    pub moment: Verdict,
    // 5.6.3(2)
    pub depth: Verdict,
    // 6.2.2
    pub shear: Verdict,
    // 9.2.1.1(1)
    pub least: Verdict,
    // 9.2.1.1(3)
    pub most: Verdict,
    // 6.2.3, 9.2.2(5) and (6)
    pub links: Verdict,
}

// The documents' numbers for each case of the answer: the refusal, 0 for none, what is reported, and the verdicts in their
// sequence, 0 pass, 1 fail, 2 not reached. A refusal has zeros and 2s. C is given it so, and the list prints it: no Result and no names. (The figures
// are those of a `Report`, one by one: C is given them flat, and a struct of them would be one name more in each law of a depth or an area.)
#[repr(C)]
#[derive(Clone, Copy)]
pub struct Listed {
    pub refusal: u64,
    pub u: u64,
    pub mrd: i64,
    pub other: Face,
    pub vrd: u64,
    pub dm: u64,
    pub area: u64,
    pub cotangent: u64,
    pub resistance: u64,
    pub verdicts: [u64; 6],
}

// Check a section under a load. u, MRd, VRd,c, dm, As and verdicts two to four are those of the face that M compresses, `other` is the other
// face; verdict one asks both, five neither. Verdict six and the links' figures are of the face that M compresses too.
// Refusals: the section tests, the load tests, those of the links, 11 N below the internal force at depth 1, 12 no u up to 30h reaches N, of
// either face.
// The sequence of the layers makes no difference: law `rearranged_check` (02's ticket 2).
#[inline(always)] // else a section that C hands by value is copied
pub fn check_section(s: Section, l: Load) -> Result<Report, Refusal>
    ensures value { result ≡ check_of s l }
    ensures refusal { result_err result ≡ first_failing (check_tests (counted s) (links_of s) l) }
    ensures accurate { AccurateCheck (counted s) l result }
    ensures best { BestLinks (counted s) (links_of s) result }
{
    let top = accept(&s)?;
    let links = counted_links(s.links);
    test_load_and_links(&links, &l)?;
    let checking = Checking {
        face: &top,
        links: &links,
        load: &l,
    };
    checking.report()
}

// Try a layer before it is placed: Check of the section with this layer at a place, from 0, in place of the one that stands there, or as one more where
// the place is the number of layers. The section in hand stays as it is (02's ticket 9).
// Refusals: 33 a place beyond the number of layers; then Check's, of the section so altered. Of more than sixteen layers 5 comes at its place.
pub fn try_layer(s: Section, l: Load, place: usize, layer: Layer) -> Result<Report, Refusal>
    ensures value { result ≡ trial_of s l place layer }
    ensures refusal { result_err result ≡ first_failing (trial_tests (counted s) (links_of s) l place layer) }
    ensures accurate { AccurateCheck (altered place layer (counted s)) l result }
    ensures best { BestLinks (altered place layer (counted s)) (links_of s) result }
{
    Refusal::LayerPlace.unless(place <= s.count)?;
    check_section(s.with_layer(place, layer), l)
}
