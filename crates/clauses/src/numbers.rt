// Document 01's numbers of an answer of Check.
ghost use Rattle.std.specs.Prelude.{◌≡◌, Ok};
ghost use Rattle.clauses.specs.Check.{refused_listed, listed, check_of};

use super::{Face, Listed, Report, check_section};
use refusals::Refusal;
use section::{Load, Section};

// A refusal has zeros and a 2 for each verdict, which a derived `Default` would not have. (Of any number,
// as it promised: a `Refusal` would ask more, and the list hands on that of a `Reading`.)
pub fn refused_listed(k: u64) -> Listed
    ensures { result ≡ refused_listed k }
{
    Listed {
        refusal: k,
        u: 0,
        mrd: 0,
        other: Face { u: 0, mrd: 0 },
        vrd: 0,
        dm: 0,
        area: 0,
        cotangent: 0,
        resistance: 0,
        verdicts: [2; 6],
    }
}

impl From<Report> for Listed {
    ghost from_gives = { λ report l. l ≡ listed (Ok report) };

    fn from(report: Report) -> Listed {
        Listed {
            refusal: 0,
            u: report.u,
            mrd: report.mrd,
            other: report.other,
            vrd: report.vrd,
            dm: report.dm,
            area: report.area,
            cotangent: report.cotangent,
            resistance: report.resistance,
            verdicts: [
                report.moment.number(),
                report.depth.number(),
                report.shear.number(),
                report.least.number(),
                report.most.number(),
                report.links.number(),
            ],
        }
    }
}

impl From<Result<Report, Refusal>> for Listed {
    ghost from_gives = { λ answer l. l ≡ listed answer };

    fn from(answer: Result<Report, Refusal>) -> Listed {
        match answer {
            Ok(report) => report.into(),
            Err(refusal) => refused_listed(refusal.number()),
        }
    }
}

// Check in these numbers: what C and the list are given.
#[inline(always)] // else section and load are copied once more
pub fn check_listed(s: Section, l: Load) -> Listed
    ensures { result ≡ listed (check_of s l) }
{
    check_section(s, l).into()
}
