ghost use Rattle.std.specs.Prelude.{◌≡◌, ◌<◌, ◌++◌, ◌∷◌, [], ℕ, All, IfNone, IfOk, IfSome, length, map};
ghost use Rattle.image_states.specs.Choosing.{HasEachSet, lists_in};
ghost use Rattle.image_states.specs.Room.{AreThreads};

use std::alloc::{AllocError, Global};

// The longest list of which all sets are made.
const MOST: usize = 12;

// A list with one number more.
fn with_number(alloc: Global, list: &[u32], number: u32) -> Result<Vec<u32>, AllocError>
    ensures { IfOk result (λ v. v.items ≡ list.now ++ number ∷ []) }
{
    let mut more = Vec::from_slice(alloc, list)?;
    more.push(number)?;
    Ok(more)
}

// Each of these lists with one number more.
fn longer(alloc: Global, lists: &[Vec<u32>], number: u32) -> Result<Vec<Vec<u32>>, AllocError>
    ensures { IfOk result (λ v. lists_in v.items
        ≡ map (λ list. list ++ number ∷ []) (lists_in lists.now)) }
{
    let mut longer = Vec::new(alloc);
    for list in lists {
        longer.push(with_number(alloc, list.as_slice(), number)?)?;
    }
    Ok(longer)
}

/// A list for each set of these numbers; None where there are too many.
pub(crate) fn sets(alloc: Global, numbers: &[u32]) -> Result<Option<Vec<Vec<u32>>>, AllocError>
    ensures each { IfOk result (λ o. IfSome o (λ v. HasEachSet numbers.now (lists_in v.items))) }
    ensures threads { IfOk result (λ o. IfSome o (λ v. (many : ℕ) → AreThreads many numbers.now
        → All (AreThreads many) (lists_in v.items))) }
    ensures many { IfOk result (λ o. IfNone o (12 < length numbers.now)) }
{
    if numbers.len() > MOST {
        return Ok(None);
    }
    let mut lists = Vec::new(alloc);
    lists.push(Vec::new(alloc))?;
    for number in numbers {
        let mut more = longer(alloc, lists.as_slice(), *number)?;
        lists.append(&mut more)?;
    }
    Ok(Some(lists))
}
