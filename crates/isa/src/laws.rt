ghost use Rattle.std.specs.Prelude.{◌≡◌, ℕ, List, ◌∷◌, ◌++◌, Ok, Err, MatchResult};
ghost use Rattle.isa.specs.declared.fault.DecodeFault.{DecodeFault as DecodeFaultOf};
ghost use Rattle.isa.specs.FirstFault.{IsOfAByte, IsFirstFault};
ghost use Rattle.isa.specs.Programs.{Program};
ghost use Rattle.isa.specs.Spelling.{HasByte, IsSpelled, spelling};
ghost use Rattle.isa.specs.Reading.{program_of};

use crate::fault::DecodeFault;
use crate::image::Image;
use crate::reading::decode;
use crate::writing::encode;
use std::alloc::Global;

/// The bytes of any image whose version has a byte are read as that image, unless memory runs out.
pub fn read_back(alloc: Global, image: &Image) -> Result<Image, DecodeFault>
    ensures { MatchResult result (λ i. HasByte image.now.version → i ≡ image.now)
        (λ e. HasByte image.now.version → e ≡ DecodeFault.Memory) }
{
    let bytes = encode(alloc, image)?;
    decode(alloc, bytes.as_slice())
}

/// No two programs whose versions have bytes have one spelling, and no two of one version have. Each spelling of a program whose
/// version has a byte is read as its program.
pub fn one_spelling()
    ensures one { (p q : Program) → HasByte p.version → HasByte q.version → IsSpelled p → IsSpelled q
        → spelling p ≡ spelling q → p ≡ q }
    ensures same { (p q : Program) → p.version ≡ q.version → IsSpelled p → IsSpelled q
        → spelling p ≡ spelling q → p ≡ q }
    ensures read { (p : Program) → HasByte p.version → IsSpelled p → program_of (spelling p) ≡ Ok p }
{}

/// A fault of one byte is the first: before that byte others are missing and nothing else is wrong, and nothing that
/// follows mends it. Each proper beginning of an image is short.
pub fn first_fault()
    ensures first { (bytes : List ℕ) (fault : DecodeFaultOf) → IsOfAByte fault
        → program_of bytes ≡ Err fault
        → (place : ℕ) × IsFirstFault bytes fault place }
    ensures short { (p : Program) (front : List ℕ) (b : ℕ) (behind : List ℕ)
        → HasByte p.version → IsSpelled p → spelling p ≡ front ++ b ∷ behind
        → program_of front ≡ Err DecodeFault.Short }
{}
