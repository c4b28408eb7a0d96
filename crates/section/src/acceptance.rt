// The section tests, the load tests and those of the links: document 01, "When a call is turned down", and 02's ticket 3.
ghost use Rattle.std.specs.Prelude.{◌++◌, ◌≡◌, IfOk, Ok, take};
ghost use Rattle.std.specs.Result.{result_err};
ghost use Rattle.refusals.specs.Chain.{first_failing};
ghost use Rattle.materials.specs.Answer.{materials_of};
ghost use Rattle.section.specs.Section.{layers_of, counted, all, depth_ok, area_ok, no_links, counted_links, links_of, link_area_ok, link_spacing_ok};
ghost use Rattle.section.specs.Load.{force_ok};
ghost use Rattle.section.specs.Refusals.{layer_tests, section_tests, load_tests, link_tests, load_link_tests, accepted};
ghost use Rattle.section.specs.Code.Usable.{PromisedSection};
ghost use Rattle.section.specs.Code.Accepted.{layers_in, design_in};

use super::{Accepted, Design, Layer, Links, Load, Section};
use materials::Materials;
use refusals::Refusal;

// (This test, the next, and the two of the links below: specs/ names them one by one, of other fields and other bounds. What they share is `contains`.)
fn depth_ok(h: u64, l: &Layer) -> bool
    ensures { result ≡ depth_ok h l.now }
{
    (1..h).contains(&u64::from(l.depth))
}

fn area_ok(l: &Layer) -> bool
    ensures { result ≡ area_ok l.now }
{
    (1..=20000).contains(&l.area)
}

// Do all depths pass test 6, and all areas test 7? All layers are asked, without a branch: by `all`, which stops at the first that fails, a depth
// was found a tenth later for sixteen layers.
fn layers_ok(h: u64, layers: &[Layer]) -> (bool, bool)
    ensures depths { result.0 ≡ all (depth_ok h) layers.now }
    ensures areas { result.1 ≡ all area_ok layers.now }
{
    let mut deep = true;
    let mut wide = true;
    for l in layers {
        deep &= depth_ok(h, l);
        wide &= area_ok(l);
    }
    (deep, wide)
}

// The layers' tests, of a section with the height h.
fn test_layers(h: u64, s: &Section) -> Result<(), Refusal>
    ensures { result_err result ≡ first_failing (layer_tests h s.now.count (layers_of s.now)) }
{
    Refusal::LayerCount.unless((1..=16).contains(&s.count))?;
    let (depths, areas) = layers_ok(h, &s.layers[..s.count]);
    Refusal::LayerDepth.unless(depths)?;
    Refusal::LayerArea.unless(areas)
}

// The section tests: of a section that passes them the materials.
fn test_section(s: &Section) -> Result<Materials, Refusal>
    ensures refusal { result_err result ≡ first_failing (section_tests (counted s.now)) }
    ensures materials { IfOk result (λ m. materials_of s.now.grade ≡ Ok m) }
{
    Refusal::Width.unless((50..=2000).contains(&s.width))?;
    Refusal::Height.unless((50..=2000).contains(&s.height))?;
    let m = materials::look_up(s.grade)?;
    test_layers(s.height.unsigned_abs(), s)?;
    Ok(m)
}

// A section as the calls compute with it, where it passes the section tests.
#[inline(always)] // else what it answers is copied once more
pub fn accept(s: &Section) -> Result<Accepted, Refusal>
    ensures value { design_in result ≡ accepted (counted s.now) }
    ensures layers { IfOk result (λ a. layers_in a ≡ layers_of s.now) }
    ensures refusal { result_err result ≡ first_failing (section_tests (counted s.now)) }
    ensures promised { PromisedSection (counted s.now) (design_in result) }
{
    let m = test_section(s)?;
    Ok(Accepted {
        design: Design {
            b: s.width.unsigned_abs(),
            h: s.height.unsigned_abs(),
            m,
        },
        layers: s.layers,
        count: s.count,
    })
}

// Is N or V in its range?
pub fn force_ok(n: i64) -> bool
    ensures { result ≡ force_ok n }
{
    (-500000000..=500000000).contains(&n)
}

// The load tests.
fn test_load(l: &Load) -> Result<(), Refusal>
    ensures { result_err result ≡ first_failing (load_tests l.now) }
{
    Refusal::AxialForce.unless(force_ok(l.n))?;
    Refusal::BendingMoment.unless((-1000000000000..=1000000000000).contains(&l.m))?;
    Refusal::ShearForce.unless(force_ok(l.v))
}

pub fn no_links() -> Links
    ensures { result ≡ no_links }
{
    Links::default()
}

// The links as they count: those that are present, or none.
pub fn counted_links(k: Links) -> Links
    ensures { result ≡ counted_links k }
{
    if k.present == 0 {
        no_links()
    } else {
        Links { present: 1, ..k }
    }
}

fn link_area_ok(k: &Links) -> bool
    ensures { result ≡ link_area_ok k.now }
{
    (1..=5000).contains(&k.area)
}

fn link_spacing_ok(k: &Links) -> bool
    ensures { result ≡ link_spacing_ok k.now }
{
    (25..=1000).contains(&k.spacing)
}

// The tests of the links.
fn test_links(k: &Links, l: &Load) -> Result<(), Refusal>
    ensures { result_err result ≡ first_failing (link_tests k.now l.now) }
{
    if k.present == 0 {
        return Ok(());
    }
    Refusal::LinkArea.unless(link_area_ok(k))?;
    Refusal::LinkSpacing.unless(link_spacing_ok(k))?;
    Refusal::LinksUnderForce.unless(l.n == 0)
}

// The load tests and then those of the links: what Check, Read a record and Write a record ask.
pub fn test_load_and_links(k: &Links, l: &Load) -> Result<(), Refusal>
    ensures { result_err result ≡ first_failing (load_link_tests k.now l.now) }
{
    test_load(l)?;
    test_links(k, l)
}

// What Write a record asks of a section, its links and a load before it looks at the buffer: the section tests, the load tests, those of the links.
pub fn test_record(s: &Section, l: &Load) -> Result<(), Refusal>
    ensures { result_err result ≡ first_failing (section_tests (counted s.now) ++ load_link_tests (links_of s.now) l.now) }
{
    accept(s)?;
    test_load_and_links(&counted_links(s.links), l)
}
