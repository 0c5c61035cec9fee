ghost use Rattle.std.specs.Prelude.{◌≡◌, ℕ, List, ◌∷◌, ◌++◌, length};
ghost use Rattle.scanner.specs.Faults.{IsFault};
ghost use Rattle.scanner.specs.Joined.{joined_bytes, AreGaps};
ghost use Rattle.scanner.specs.Places.{start, place_after};
ghost use Rattle.scanner.specs.Tokens.{EndsOnce, IsTokens, TokenView};
ghost use Rattle.scanner.specs.declared.refusal.Refusal.{Refusal as RefusalOf};

/// What the tokens of a text are.
///
/// A text has at most one list of tokens. Their bytes, each behind the gap before it, are the text. Each token's bytes
/// stand in the text at the token's place. The end is the last token, and no other one.
pub fn token_laws()
    ensures one { (text : List ℕ) (ts us : List TokenView) → IsTokens text ts → IsTokens text us
        → ts ≡ us }
    ensures joined { (text : List ℕ) (ts : List TokenView) → IsTokens text ts
        → (gaps : List (List ℕ)) × AreGaps gaps × (length gaps ≡ length ts)
        × (text ≡ joined_bytes gaps ts) }
    ensures places { (text : List ℕ) (before after : List TokenView) (t : TokenView)
        → IsTokens text (before ++ t ∷ after)
        → (front behind : List ℕ) × (text ≡ front ++ (t.text ++ behind))
        × (t.place ≡ place_after start front) }
    ensures ends { (text : List ℕ) (ts : List TokenView) → IsTokens text ts → EndsOnce ts }
{}

/// A text has at most one fault, and none where it has tokens.
pub fn fault_laws()
    ensures one { (text : List ℕ) (e f : RefusalOf) → IsFault text e → IsFault text f → e ≡ f }
    ensures no_tokens { (text : List ℕ) (ts : List TokenView) (e : RefusalOf)
        → IsTokens text ts → IsFault text e → ⊥ }
{}
