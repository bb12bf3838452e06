//! What holds of the tokens of a text, whatever finds them.

ghost use Rattle.std.specs.Prelude.{◌≡◌, List, ℕ, All};
ghost use Rattle.clu_text.specs.declared.token.Token.{Token};
ghost use Rattle.clu_text.specs.Tokens.{HasTokens, HasNoFault, IsSpelled, AreInOrder};

/// A text has one list of tokens at most.
pub fn no_text_has_two_token_lists()
    ensures { (text : List ℕ) (ts us : List Token) → HasTokens text ts → HasTokens text us → ts ≡ us }
{}

/// A text that has tokens has no fault.
pub fn no_tokens_at_a_fault()
    ensures { (text : List ℕ) (ts : List Token) → HasTokens text ts → HasNoFault text }
{}

/// The slice of each token isn't empty, and is spelled as its kind says.
pub fn tokens_are_spelled()
    ensures { (text : List ℕ) (ts : List Token) → HasTokens text ts → All (IsSpelled text) ts }
{}

/// The tokens stand one behind another.
pub fn tokens_are_in_order()
    ensures { (text : List ℕ) (ts : List Token) → HasTokens text ts → AreInOrder 0 ts }
{}
