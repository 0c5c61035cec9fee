ghost use Rattle.std.specs.Prelude.{◌≡◌, ◌≤◌, ℕ, List};
ghost use Rattle.scanner.specs.Tokens.{IsTokens, views};
ghost use Rattle.scanner.specs.declared.token.Token.{Token as TokenOf};
ghost use Rattle.syntax.specs.Lexeme.{lexemes};
ghost use Rattle.syntax.specs.Spelling.{unit_text};
ghost use Rattle.program.specs.WellFormed.{WellFormed};
ghost use Rattle.proof_well_formed.specs.Faultless.{IsFaultless, HasNumbers};
ghost use Rattle.syntax.specs.Limits.{most_nestings};
ghost use Rattle.syntax.specs.Nesting.{unit_nesting};
ghost use Rattle.syntax.specs.Tree.{UnitTree};
ghost use Rattle.types.specs.Resolved.{resolved};

/// A unit whose numbers and nestings are within their limits, as those of each text that is parsed are, and that has no
/// fault, is resolved to a well-formed program.
pub fn faultless_units_are_well_formed()
    ensures { (u : UnitTree) → HasNumbers u → unit_nesting u ≤ most_nestings → IsFaultless u
        → WellFormed (resolved u) }
{}

/// The numbers of a unit that a text says are within their limit, since those of its tokens are.
pub fn units_of_texts_have_numbers()
    ensures { (text : List ℕ) (ts : List TokenOf) (u : UnitTree) → IsTokens text (views ts)
        → unit_text u ≡ lexemes ts
        → HasNumbers u }
{}
