// Lists of one item, of two lists, and with one item more.
ghost use Rattle.std.specs.Prelude.{◌≡◌, ◌∷◌, [], ◌++◌, IfOk};

use crate::NoMemory;
use sqlite_items::Items;
use std::alloc::Global;

/// The list of one item.
pub fn one<T: Drop>(alloc: Global, item: T) -> Result<Items<T>, NoMemory>
    ensures { IfOk result (λ items. items ≡ item ∷ []) }
{
    let mut items = Items::new(alloc);
    items.push(item)?;
    Ok(items)
}

/// The items of two lists.
pub fn both<T: Drop>(mut first: Items<T>, second: Items<T>) -> Result<Items<T>, NoMemory>
    ensures { IfOk result (λ items. items ≡ first ++ second) }
{
    first.append(second)?;
    Ok(first)
}

/// A list with one more item at its end.
pub fn with_last<T: Drop>(mut items: Items<T>, item: T) -> Result<Items<T>, NoMemory>
    ensures { IfOk result (λ all. all ≡ items ++ item ∷ []) }
{
    items.push(item)?;
    Ok(items)
}
