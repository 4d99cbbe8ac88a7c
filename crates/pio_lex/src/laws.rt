//! Laws of the tokens' definition.
ghost use Rattle.std.specs.Prelude.{◌≡◌, ℕ, List, drop, ◌⊎◌};
ghost use Rattle.std.specs.List.{All};
ghost use Rattle.pio_lex.specs.declared.fault.LexKind.{LexKind};
ghost use Rattle.pio_lex.specs.declared.fault.LexKind.TheVariants.{BadByte};
ghost use Rattle.pio_lex.specs.declared.token.Token.{Token};
ghost use Rattle.pio_lex.specs.Spellings.{IsLongest};
ghost use Rattle.pio_lex.specs.Tokens.{IsTokens, IsTokenOf, IsFirstFault, HasTokens, HasFault};

/// Each source has tokens or a first fault, never both, and of either just one.
pub fn every_source_has_one_reading()
    ensures some { (source : List ℕ) → HasTokens source ⊎ HasFault source }
    ensures one_list { (source : List ℕ) (a b : List Token)
        → IsTokens source a → IsTokens source b → a ≡ b }
    ensures one_fault { (source : List ℕ) (line other : ℕ) (kind another : LexKind)
        → IsFirstFault source line kind → IsFirstFault source other another
        → (line ≡ other) × (kind ≡ another) }
    ensures apart { (source : List ℕ) (tokens : List Token) (line : ℕ) (kind : LexKind)
        → IsTokens source tokens → IsFirstFault source line kind → ⊥ }
{}

/// Each token is the longest text from its first byte that spells one, and where a byte begins no token, no text from
/// there spells one.
pub fn tokens_are_the_longest_spellings()
    ensures each { (source : List ℕ) (tokens : List Token)
        → IsTokens source tokens → All (IsTokenOf source) tokens }
    ensures bad_byte { (source : List ℕ) (line : ℕ) (f : IsFirstFault source line BadByte)
        → IsLongest (drop f.place.at source) 0 }
{}
