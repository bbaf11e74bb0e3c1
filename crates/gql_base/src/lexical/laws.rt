//! What holds of the tokens of every text. These functions do nothing: their contracts are the laws.

ghost use Rattle.std.specs.Prelude.{◌≡◌, ◌⊎◌, ℕ, Bool, ◌<◌, ◌≤◌, List, All, length, map, IsUtf8, IsCharBoundary};
ghost use Rattle.gql_base.specs.declared.lexical.token.Token.{Token};
ghost use Rattle.gql_base.specs.lexical.Strings.{StringCharacter, IsBody, characters_value};
ghost use Rattle.gql_base.specs.lexical.BlockStrings.{BlockCharacter, IsBlockBody, block_characters_value};
ghost use Rattle.gql_base.specs.lexical.Blocks.{unescaped};
ghost use Rattle.gql_base.specs.lexical.Scans.{text_value};
ghost use Rattle.gql_base.specs.lexical.StringTokens.{StandsFor};
ghost use Rattle.gql_base.specs.lexical.Literals.{string_of};
ghost use Rattle.gql_base.specs.lexical.Pieces.{Lexeme};
ghost use Rattle.gql_base.specs.declared.lexical.lexing.LexFault.{LexFault};
ghost use Rattle.gql_base.specs.declared.lexical.lexing.LexFault.TheVariants.{Memory};
ghost use Rattle.gql_base.specs.lexical.Faults.{HasFault};
ghost use Rattle.gql_base.specs.lexical.Uses.{IsUsed};
ghost use Rattle.gql_base.specs.lexical.Tokens.{Lexes, HasLexemes, AreInOrder, lexeme_of};

/// No text, in which floats may stand or may not, lexes as two lists of tokens, or has two lists of lexemes.
pub fn a_text_lexes_in_one_way()
    ensures tokens { (floats : Bool) (text : List ℕ) (tokens others : List Token) → Lexes floats text tokens → Lexes floats text others → tokens ≡ others }
    ensures lexemes { (floats : Bool) (text : List ℕ) (lexemes others : List Lexeme) → HasLexemes floats text lexemes → HasLexemes floats text others → lexemes ≡ others }
{}

/// Each text lexes or has a fault, and not both. It has one fault at most, which is its first. Want of memory is none.
pub fn a_text_lexes_or_has_one_fault()
    ensures either { (floats : Bool) (text : List ℕ) → ((tokens : List Token) × Lexes floats text tokens) ⊎ ((fault : LexFault) × HasFault floats text fault) }
    ensures not_both { (floats : Bool) (text : List ℕ) (tokens : List Token) (fault : LexFault) → Lexes floats text tokens → HasFault floats text fault → ⊥ }
    ensures one_fault { (floats : Bool) (text : List ℕ) (fault other : LexFault) → HasFault floats text fault → HasFault floats text other → fault ≡ other }
    ensures memory { (floats : Bool) (text : List ℕ) → HasFault floats text Memory → ⊥ }
{}

/// The lexemes of a UTF-8 text are those that its tokens are without their places.
pub fn lexemes_are_tokens_without_places()
    ensures of_tokens { (floats : Bool) (text : List ℕ) (tokens : List Token) → IsUtf8 text → Lexes floats text tokens → HasLexemes floats text (map (lexeme_of text) tokens) }
    ensures have_tokens { (floats : Bool) (text : List ℕ) (lexemes : List Lexeme) → IsUtf8 text → HasLexemes floats text lexemes → (tokens : List Token) × Lexes floats text tokens × (map (lexeme_of text) tokens ≡ lexemes) }
{}

/// The tokens of a text lie in it, one after the other, and none is empty. They lie at borders of characters.
pub fn tokens_lie_in_their_text()
    ensures in_order { (floats : Bool) (text : List ℕ) (tokens : List Token) → Lexes floats text tokens → AreInOrder 0 (length text) tokens }
    ensures within { (floats : Bool) (text : List ℕ) (tokens : List Token) → Lexes floats text tokens → All (λ token. (token.span.start < token.span.end) × (token.span.end ≤ length text)) tokens }
    ensures at_borders { (floats : Bool) (text : List ℕ) (tokens : List Token) → IsUtf8 text → Lexes floats text tokens → All (λ token. IsCharBoundary text token.span.start × IsCharBoundary text token.span.end) tokens }
{}

/// The value of a string is what its characters stand for, one after the other. That of a block string is made of the
/// lines of what its characters stand for. So in a text each string token has the value of its characters.
pub fn strings_stand_for_their_characters()
    ensures strings { (characters : List StringCharacter) (body : List ℕ) → IsBody characters body → text_value 0 body ≡ characters_value characters }
    ensures blocks { (characters : List BlockCharacter) (body : List ℕ) → IsBlockBody characters body → unescaped body ≡ block_characters_value characters }
    ensures tokens { (floats : Bool) (text : List ℕ) (tokens : List Token) → IsUtf8 text → Lexes floats text tokens → All (λ token. StandsFor (string_of text token) (lexeme_of text token)) tokens }
{}

/// A directive is used in a text or it isn't, and not both.
pub fn a_directive_is_used_or_not()
    ensures either { (name text : List ℕ) → (used : Bool) × IsUsed name text used }
    ensures one { (name text : List ℕ) (used other : Bool) → IsUsed name text used → IsUsed name text other → used ≡ other }
{}
