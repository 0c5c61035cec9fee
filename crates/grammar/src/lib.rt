//! The laws of the grammar: each list of tokens has one tree or one refusal.
#![tactic(auto)]

pub mod productions;

ghost use Rattle.std.specs.Prelude.{◌≡◌, ◌≤◌, List};
ghost use Rattle.scanner.specs.declared.token.Token.{Token as TokenOf};
ghost use Rattle.scanner.specs.Tokens.{EndsOnce, views};
ghost use Rattle.scanner.specs.declared.refusal.Refusal.{Refusal as RefusalOf};
ghost use Rattle.syntax.specs.Lexeme.{lexemes};
ghost use Rattle.syntax.specs.Limits.{most_nestings};
ghost use Rattle.syntax.specs.Tree.{UnitTree};
ghost use Rattle.syntax.specs.Spelling.{unit_text};
ghost use Rattle.syntax.specs.Nesting.{unit_nesting};
ghost use Rattle.grammar.specs.Accepts.{IsRefusalOf};
ghost use Rattle.grammar.specs.Machine.{items_of, reads, unit, unit_trees, Read, Refused};

/// No two units are spelled alike.
pub fn one_tree()
    ensures { (u v : UnitTree) → unit_text u ≡ unit_text v → u ≡ v }
{}

/// The machine that a parser follows reads the tokens of a unit as that unit, where no more nestings are
/// open at once than may be, and nothing else; and it refuses any others at their place.
pub fn one_answer()
    ensures accepts { (ts : List TokenOf) (u : UnitTree) → unit_nesting u ≤ most_nestings
        → unit_text u ≡ lexemes ts → reads most_nestings (items_of ts) unit ≡ Read (unit_trees u) }
    ensures spells { (ts : List TokenOf) (u : UnitTree) → EndsOnce (views ts)
        → reads most_nestings (items_of ts) unit ≡ Read (unit_trees u) → unit_text u ≡ lexemes ts }
    ensures limits { (ts : List TokenOf) (u : UnitTree)
        → reads most_nestings (items_of ts) unit ≡ Read (unit_trees u)
        → unit_nesting u ≤ most_nestings }
    ensures refuses { (ts : List TokenOf) (e : RefusalOf) → EndsOnce (views ts)
        → reads most_nestings (items_of ts) unit ≡ Refused e → IsRefusalOf ts e }
{}
