ghost use Rattle.std.specs.Prelude.{◌≡◌, false, true};
ghost use Rattle.image_search.specs.Kept.{IsApartIn};
ghost use Rattle.image_search.specs.Living.{HoldsAt};

use crate::kept::KeptStates;
use isa::Image;

/// Whether in the state at a place no thread's next step sees that an exit was followed alone; true too where none is.
pub(crate) fn is_apart_at(image: &Image, kept: &KeptStates, place: u32) -> bool
    ensures apart { result ≡ true
        → HoldsAt image.now kept.now place (IsApartIn image.now kept.now.parts.alone) }
    ensures alone { result ≡ false → kept.now.parts.alone ≡ true }
{
    if !kept.parts.follows_exits() {
        return true;
    }
    match kept.state(place) {
        None => false,
        Some(packed) => kept.parts.is_apart(image, packed),
    }
}
