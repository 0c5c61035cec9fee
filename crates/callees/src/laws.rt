// How many things a unit declares.

ghost use Rattle.std.specs.Prelude.{◌≡◌, ◌<◌, ◌≤◌, ℕ, List, length};
ghost use Rattle.scanner.specs.declared.token.Token.{Token};
ghost use Rattle.scanner.specs.Tokens.{IsTokens, views};
ghost use Rattle.syntax.specs.Lexeme.{lexemes};
ghost use Rattle.syntax.specs.Spelling.{unit_text};
ghost use Rattle.syntax.specs.Tree.{UnitTree};
ghost use Rattle.callees.specs.Names.{declarations};

/// A unit declares no more monitors, members, pieces, parameters and locals than it has lexemes. Those of one that is
/// read from a text can be counted in 32 bits, since a text has at most 1,048,576 bytes.
pub fn few_declarations()
    ensures lexemes { (u : UnitTree) → declarations u ≤ length (unit_text u) }
    ensures text { (text : List ℕ) (tokens : List Token) (u : UnitTree)
        → IsTokens text (views tokens)
        → unit_text u ≡ lexemes tokens → declarations u < u32.MAX }
{}
