//! The replicas of a world without the rest of it.
ghost use Rattle.std.specs.Prelude.{◌≡◌, IfOk};
ghost use Rattle.std.specs.List.{filter_map};

use ritas_base::Mem;
use std::alloc::Global;

/// What stands at these places, in order. The one error is want of memory.
pub(crate) fn present<T: Drop>(alloc: Global, places: Vec<Option<T>>) -> Result<Vec<T>, Mem>
    ensures { IfOk result (λ values. values.items ≡ filter_map (λ place. place) places.items) }
{
    let mut values = Vec::new(alloc);
    for place in places {
        if let Some(value) = place {
            values.push(value)?;
        }
    }
    Ok(values)
}
