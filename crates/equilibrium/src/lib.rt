// A section of reinforced concrete in equilibrium: document 01, "Equilibrium", and 02's ticket 11 for depths beyond 10h.

#![tactic(auto)]

mod balance;
mod guess;
mod load;
pub mod resistance;
mod search;

ghost use Rattle.std.specs.Prelude.{◌≤◌, ◌≡◌};
ghost use Rattle.std.specs.Result.{result_err};
ghost use Rattle.refusals.specs.Chain.{first_failing};
ghost use Rattle.section.specs.Section.{counted};
ghost use Rattle.equilibrium.specs.Refusals.{find_depth_tests, moment_tests};
ghost use Rattle.equilibrium.specs.Depth as depth;
ghost use Rattle.equilibrium.specs.Depth.{find_depth};
ghost use Rattle.equilibrium.specs.Moment.{moment_at};
ghost use Rattle.equilibrium.specs.Accuracy.{AccurateDepth};

pub use balance::carries_at_one;
pub use load::Loaded;
use refusals::Refusal;
use section::Section;
use section::acceptance::{accept, force_ok};

// The depth of the neutral axis, in tenths of a millimetre from the compressed face: up to 10h, with the number of trials that the halving rule of
// document 02's ticket 12 takes to it; or beyond 10h, where the section is compressed over its full height.
#[derive(Clone, Copy)]
pub enum Depth {
    At(u64, u64),
    Beyond(u64),
}

// Find a depth, with the top compressed: the greatest u from 1 to 10h tenths of a millimetre at which the internal force is at most N; for N
// above the internal force at 10h, the least u beyond it, up to 30h, at which the internal force is at least N. With a depth up to 10h comes the number of
// trials of the halving rule; refusals and depths beyond 10h report 0 (`trials_found`).
// Refusals: the section tests, 8 N out of range, 11 N below the internal force at depth 1, 12 no u up to 30h reaches N.
// The sequence of the layers makes no difference: law `rearranged_find` (02's ticket 2).
pub fn find_depth(s: Section, n: i64) -> Result<Depth, Refusal>
    ensures value { result ≡ find_depth s n }
    ensures refusal { result_err result ≡ first_failing (find_depth_tests (counted s) n) }
    ensures accurate { AccurateDepth s n result }
    ensures never_exceeds_15 { depth.trials_found result ≤ 15 }
{
    let face = accept(&s)?;
    Refusal::AxialForce.unless(force_ok(n))?;
    let loaded = Loaded { face: &face, n };
    loaded.depth()
}

// Moment at a depth, with the top compressed: the moment resistance at u tenths of a millimetre, in N·mm.
// Refusals: the section tests, and 13 where u is not in 1 to 30h.
// The sequence of the layers makes no difference: law `rearranged_moment`.
pub fn moment_at(s: Section, u: u64) -> Result<i64, Refusal>
    ensures value { result ≡ moment_at s u }
    ensures refusal { result_err result ≡ first_failing (moment_tests (counted s) u) }
{
    let face = accept(&s)?;
    Refusal::DepthRange.unless((1..=30 * face.design.h).contains(&u))?;
    Ok(resistance::moment_resistance(&face, u))
}
