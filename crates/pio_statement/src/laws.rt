//! Laws of the statements' definition.
ghost use Rattle.std.specs.Prelude.{◌≡◌, ℕ, List, true};
ghost use Rattle.pio_lex.specs.declared.token.Token.{Token};
ghost use Rattle.pio_statement.specs.declared.fault.StatementKind.TheVariants.{Directive};
ghost use Rattle.pio_statement.specs.declared.statement.Statement.{Statement};
ghost use Rattle.pio_statement.specs.Lines.{has_unknown, line_end, statement_at};

/// A statement takes its whole line, and an unknown directive is told exactly where one is on the line.
pub fn a_line_has_one_answer()
    ensures after { (source : List ℕ) (tokens : List Token) (from to : ℕ) (s : Statement)
        → statement_at source tokens from ≡ Ok (s, to) → to ≡ line_end tokens from }
    ensures unknown { (source : List ℕ) (tokens : List Token) (from : ℕ)
        → has_unknown tokens from ≡ true → statement_at source tokens from ≡ Err Directive }
    ensures unknown_only { (source : List ℕ) (tokens : List Token) (from : ℕ)
        → statement_at source tokens from ≡ Err Directive → has_unknown tokens from ≡ true }
{}
