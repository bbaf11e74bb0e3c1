//! What holds of the texts in which symbols are printed. These functions do nothing: their contracts are the laws.

ghost use Rattle.std.specs.Prelude.{◌≡◌, ℕ, Bool, List, All, map, IsUtf8};
ghost use Rattle.gql_base.specs.declared.lexical.token.Token.{Token};
ghost use Rattle.gql_base.specs.lexical.Tokens.{Lexes};
ghost use Rattle.gql_base.specs.ways.Symbols.{Symbols, symbols_from};
ghost use Rattle.gql_base.specs.printing.Printing.{printed};
ghost use Rattle.gql_base.specs.printing.PlacelessSymbols.{placeless_symbol};
ghost use Rattle.gql_base.specs.printing.PrintableSymbols.{IsTextual};

/// What is printed of symbols lexes, as tokens that are the same symbols but for the offsets of names. It is UTF-8.
pub fn what_is_printed_has_the_same_tokens()
    ensures tokens { (floats : Bool) (ws : Symbols) → All (IsTextual floats) ws → (tokens : List Token) × Lexes floats (printed ws) tokens × (map placeless_symbol (symbols_from (printed ws) tokens 0) ≡ map placeless_symbol ws) }
    ensures utf8 { (floats : Bool) (ws : Symbols) → All (IsTextual floats) ws → IsUtf8 (printed ws) }
{}

/// The symbols of a UTF-8 text are punctuators, names, integers of 128 bits, floats as they are written and strings in UTF-8. So
/// all can be printed.
pub fn symbols_of_a_text_are_textual()
    ensures { (floats : Bool) (text : List ℕ) (tokens : List Token) → IsUtf8 text → Lexes floats text tokens → All (IsTextual floats) (symbols_from text tokens 0) }
{}
