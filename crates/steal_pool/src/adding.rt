// A list that grows by one item, or is out of memory.
ghost use Rattle.std.specs.Prelude.{◌≡◌, [], ◌∷◌, ◌++◌, ◌<◌, ◌≤◌, OnOk, IsOk, vec_len, vec_capacity};

use spec_pool::Memory;

/// Appends an item to a list. The only error is out of memory, as the `Memory` that all calls of the pool return. It never
/// comes while the list has capacity for one more.
pub fn add_item<T: Drop>(items: &mut Vec<T>, item: T) -> Result<(), Memory>
    ensures added { OnOk result (items.new.items ≡ items.old.items ++ item ∷ []) }
    ensures room { vec_len items.old < vec_capacity items.old → IsOk result }
    ensures capacity { vec_capacity items.old ≤ vec_capacity items.new }
{
    let Ok(_) = items.push(item) else {
        return Err(Memory);
    };
    Ok(())
}
