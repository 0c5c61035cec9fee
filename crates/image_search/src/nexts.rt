ghost use Rattle.std.specs.Prelude.{◌≡◌, ◌<◌, All, IfOk, IfSome, None, OnOk, Some, length, suc};
ghost use Rattle.std.specs.List.{slice_get};
ghost use Rattle.image_states.specs.Nexts.{AreNexts, OwnDone, may_of};
ghost use Rattle.image_states.specs.Packed.{IsGrown, IsWithin};
ghost use Rattle.image_search.specs.Kept.{IsWhyAt};
ghost use Rattle.image_states.specs.declared.packed.Packed.{Packed as PackedOf};

use image_states::{Next, Outside, Packed, Parts, Scratch};
use isa::Image;
use std::alloc::{AllocError, Global};

/// What may come next of the state at a place; else why not all was found.
pub(crate) fn nexts_at(
    alloc: Global,
    image: &Image,
    parts: &mut Parts,
    states: &[Packed],
    place: u32,
    outside: Outside,
    scratch: &mut Scratch,
    found: &mut Vec<Next>,
) -> Result<Option<image_states::Bound>, AllocError>
    requires within { All (IsWithin parts.old) states.now }
    requires place { place < length states.now }
    ensures grown { OnOk result (IsGrown parts.old parts.new) }
    ensures why { IfOk result (λ o. IfSome o (IsWhyAt parts.new states.now place)) }
    ensures nexts { IfOk result (λ o. o ≡ None → (x : PackedOf)
        × (slice_get states.now place ≡ Some x)
        × AreNexts image.now (may_of outside) parts.new x found.new.items) }
{
    let Some(packed) = states.get(place as usize) else {
        unreachable!()
    };
    parts.nexts(alloc, image, packed, outside, scratch, found)
}

/// What the own steps of the thread behind so many others may lead to from the state at a place; else why not all was found.
pub(crate) fn own_nexts_at(
    alloc: Global,
    image: &Image,
    parts: &mut Parts,
    states: &[Packed],
    place: u32,
    k: usize,
    t: u32,
    scratch: &mut Scratch,
    found: &mut Vec<Next>,
) -> Result<Option<image_states::Bound>, AllocError>
    requires within { All (IsWithin parts.old) states.now }
    requires place { place < length states.now }
    requires number { t ≡ suc k }
    ensures grown { OnOk result (IsGrown parts.old parts.new) }
    ensures done { IfOk result (λ o. o ≡ None → (x : PackedOf)
        × (slice_get states.now place ≡ Some x)
        × OwnDone image.now parts.new x found.new.items t) }
{
    let Some(packed) = states.get(place as usize) else {
        unreachable!()
    };
    let why = parts.own_nexts(alloc, image, packed, k, t, scratch, found)?;
    Ok(why)
}
