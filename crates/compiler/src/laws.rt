// Which program a text is.

ghost use Rattle.std.specs.Prelude.{◌≡◌, ℕ, List};
ghost use Rattle.scanner.specs.declared.refusal.Refusal.{Refusal as RefusalOf};
ghost use Rattle.words.specs.declared.version.ImageVersion.{ImageVersion as VersionOf};
ghost use Rattle.program.specs.Trees.{Program, as_version};
ghost use Rattle.backend.specs.Refusals.{CodeFits};
ghost use Rattle.compiler.specs.Accepts.{AcceptsText, RefusesText, RefusesTextAs};

use grammar::one_tree;
use scanner::{fault_laws, token_laws};

/// A text is at most one program and has at most one refusal, and a program whose code fits is not refused; an image of
/// either version has refusals alike.
pub fn text_laws()
    ensures one_program { (text : List ℕ) (p q : Program) → AcceptsText text p → AcceptsText text q
        → p ≡ q }
    ensures one_refusal { (text : List ℕ) (e f : RefusalOf) → RefusesText text e
        → RefusesText text f → e ≡ f }
    ensures not_both { (text : List ℕ) (p : Program) (e : RefusalOf) → AcceptsText text p
        → CodeFits p → RefusesText text e → ⊥ }
    ensures one_refusal_as { (v : VersionOf) (text : List ℕ) (e f : RefusalOf) → RefusesTextAs v text e
        → RefusesTextAs v text f → e ≡ f }
    ensures not_both_as { (v : VersionOf) (text : List ℕ) (p : Program) (e : RefusalOf)
        → AcceptsText text p → CodeFits (as_version v p) → RefusesTextAs v text e → ⊥ }
{
    token_laws();
    fault_laws();
    one_tree();
}
