// Tension reinforcement: As and dm. Document 01, "Verdicts".
ghost use Rattle.std.specs.Prelude.{◌≤◌, ◌≡◌, length};
ghost use Rattle.verdicts.specs.Tension.{in_tension, As, dm};
ghost use Rattle.verdicts.specs.Code.Ranges.{Counts};

use section::Layer;

// The reinforcement in tension: As in mm² and dm in mm, both 0 with no tension layer, as document 01 has them and the list prints them: so no Option.
// (No ghost fields for the bounds of `small`: `shear_verdict` asks nothing of them, and a field would.)
#[derive(Clone, Copy)]
pub struct Reinforcement {
    pub area: u64,
    pub depth: u64,
}

// Is a layer in tension, 10·d > u?
fn in_tension(u: u64, l: &Layer) -> bool
    ensures { result ≡ in_tension u l.now }
{
    u < 10 * u64::from(l.depth)
}

// The reinforcement of a section at the depth u. Which of the layers are in tension follows no rule, so the loop over them has no branch.
pub fn tension_reinforcement(layers: &[Layer], u: u64) -> Reinforcement
    requires { Counts (length layers.now) layers.now }
    ensures area { result.area ≡ As u layers.now }
    ensures depth { result.depth ≡ dm u layers.now }
    ensures small { (result.area ≤ 320000) × (result.depth ≤ 1999) }
{
    let mut area: u64 = 0;
    let mut moment: u64 = 0;
    for l in layers {
        let counts = in_tension(u, l);
        let steel = u64::from(l.area);
        area += arith::either(counts, steel, 0);
        moment += arith::either(counts, steel * u64::from(l.depth), 0);
    }
    let depth = moment.checked_div(area).unwrap_or(0);
    Reinforcement { area, depth }
}
