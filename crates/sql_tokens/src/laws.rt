ghost use Rattle.std.specs.Prelude.{◌≡◌, List, ℕ, ◌∷◌, ◌++◌};
ghost use Rattle.sql_tokens.specs.declared.token.Token.{Token};
ghost use Rattle.sql_tokens.specs.Tokens.{tokens_of, PlacesRise, EndsOnce, StandsThere};

/// Laws of the tokens of any text: each stands behind the one before it, and the last and no other is the end or bad. A call does
/// nothing, and a proof after it knows the laws.
pub const fn tokens_are_in_order()
    ensures rise { (text : List ℕ) → PlacesRise 1 (tokens_of text) }
    ensures ends { (text : List ℕ) → EndsOnce (tokens_of text) }
{}

/// A law of the tokens of any text: each that is a text stands at its place.
pub const fn texts_stand_there()
    ensures { (text : List ℕ) (before behind : List Token) (token : Token) → tokens_of text ≡ before ++ token ∷ behind → StandsThere text token.what token.at }
{}
