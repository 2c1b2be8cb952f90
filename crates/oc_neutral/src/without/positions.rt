//! New positions, where some of a list stay and others go.
ghost use Rattle.std.specs.Prelude.{◌≡◌, ◌^◌, ◌<◌, IfOk, length};
ghost use Rattle.oc_neutral.specs.Without as without;

use oc_base::NoMemory;
use std::alloc::Global;

/// The new position of each that stays. One that goes has that of the next that stays. `NoMemory`
/// where memory ran out. Linear in the list.
pub(crate) fn new_positions(alloc: Global, stay: &[bool]) -> Result<Vec<u32>, NoMemory>
    requires { length stay.now < 2 ^ 31 }
    ensures { IfOk result (λ positions. positions.items ≡ without.positions_from 0 stay.now) }
{
    let mut positions = Vec::with_capacity(alloc, stay.len())?;
    let mut next = 0;
    for stays in stay {
        positions.push(next)?;
        if *stays {
            next += 1;
        }
    }
    Ok(positions)
}
