//! Laws of tokens.

ghost use Rattle.std.specs.Prelude.{◌≡◌, ℕ, List};
ghost use Rattle.text_lexer.specs.Listed.{AreTokens};
ghost use Rattle.text_lexer.specs.Token.{IsToken};
ghost use Rattle.text_lexer.specs.Tokens.{tokens};
ghost use Rattle.text_lexer.specs.declared.token.Kind.{Kind};

/// A token's bytes tell its kind.
pub fn token_is_of_one_kind()
    ensures { (j k : Kind) (bytes : List ℕ) → IsToken j bytes → IsToken k bytes → j ≡ k }
{}

/// A text has one list of tokens, each the longest behind blanks and comments, up to where none begins.
pub fn text_has_one_list_of_tokens()
    ensures computed { (text : List ℕ) → AreTokens text (tokens text).0 (tokens text).1 }
    ensures only { (text : List ℕ) (l m : List (Kind × List ℕ)) (a b : List ℕ) → AreTokens text l a → AreTokens text m b → (l ≡ m) × (a ≡ b) }
{}
