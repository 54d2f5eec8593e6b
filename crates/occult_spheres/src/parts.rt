// The function and the guards of an occultation.
ghost use Rattle.std.specs.Prelude.{◌≡◌, IfOk, IsTrue, map};
ghost use Rattle.spec_kinds.specs.Faults.{is_radius};
ghost use Rattle.spec_kinds.specs.Shadows.{shadow_function, shadow_conditions};
ghost use Rattle.occult_spheres.specs.Guards.{condition_of};

use crate::terms::{disc_size_guard, distance_guard, occultation_function};
use event_expr::Formula;
use spec_kinds::Shadow;
use spec_text::Decimal;
use std::alloc::{AllocError, Global};

/// The one error of the calls: out of memory.
pub type Memory = AllocError;

/// An occultation as formulas.
#[derive(Drop)]
pub struct OccultParts {
    /// The function: at least 0 while the discs overlap (`Any`), or one lies within the other (`Full`, `Annular`).
    pub f: Formula,
    /// The guards: formulas, each with whether it has to be at least 0 (true) or below 0 (false).
    pub guards: Vec<(Formula, bool)>,
}

/// Returns the occultation of a sphere of the radius `back` by a sphere of the radius `front` as formulas, as SPICE's
/// `gfoclt` has it. Radii are in km, at least 0 and below 2^36. For an observer outside both spheres the function is at
/// least 0 exactly while the discs overlap (`Any`), or one lies within the other (`Full`, `Annular`). The guards say
/// that the front body is no farther than the other, and which disc is the larger. The only error is out of memory.
pub fn occult(
    alloc: Global,
    kind: Shadow,
    front: Decimal,
    back: Decimal,
) -> Result<OccultParts, Memory>
    requires front { IsTrue (is_radius front) }
    requires back { IsTrue (is_radius back) }
    ensures function { IfOk result (λ parts. parts.f ≡ shadow_function kind front back) }
    ensures guards { IfOk result (λ parts. map condition_of parts.guards.items
        ≡ shadow_conditions kind front back) }
{
    let f = Formula::of(occultation_function(alloc, kind, front, back)?);
    let guards = occultation_guards(alloc, kind, front, back)?;
    Ok(OccultParts { f, guards })
}

// Returns the guards of an occultation by a sphere of the radius `front` in km: formulas, each with whether it has to
// be at least 0 (true) or below 0 (false). The front body is no farther than the other; for `Full` its disc is no
// smaller, for `Annular` it is smaller. The only error is out of memory.
fn occultation_guards(
    alloc: Global,
    kind: Shadow,
    front: Decimal,
    back: Decimal,
) -> Result<Vec<(Formula, bool)>, AllocError>
    requires front { IsTrue (is_radius front) }
    requires back { IsTrue (is_radius back) }
    ensures { IfOk result (λ guards. map condition_of guards.items
        ≡ shadow_conditions kind front back) }
{
    let mut guards = Vec::new(alloc);
    guards.push((Formula::of(distance_guard(alloc)?), true))?;
    match kind {
        Shadow::Any => {}
        Shadow::Full => guards.push((Formula::of(disc_size_guard(alloc, front, back)?), true))?,
        Shadow::Annular => guards.push((Formula::of(disc_size_guard(alloc, front, back)?), false))?,
    }
    Ok(guards)
}
