//! What follows from the definitions alone.
ghost use Rattle.std.specs.Prelude.{◌≡◌, ℕ, ◌+◌, ℤ, List, [], Some, Result, Ok, slice_range};
ghost use Rattle.std.specs.Str.{IsUtf8};
ghost use Rattle.pio_lex.specs.declared.token.Token.{Token};
ghost use Rattle.pio_lex.specs.declared.token.TokenKind.TheVariants as kind;
ghost use Rattle.pio_lex.specs.Tokens.{IsTokenOf};
ghost use Rattle.pio_expr.specs.declared.expr.Item.{Item};
ghost use Rattle.pio_expr.specs.declared.symbol.Symbol.TheVariants.{Define};
ghost use Rattle.pio_expr.specs.declared.fault.ValueKind.{ValueKind};
ghost use Rattle.pio_expr.specs.Grammar.{expression_at};
ghost use Rattle.pio_expr.specs.Trees.{Tree, HasTree, postfix, tree_value};
ghost use Rattle.pio_expr.specs.Values.{Scope, symbol_of, value_of, value_of_name, worked_out};

/// The value of a define's own expression is that of its name.
pub fn own_value()
    ensures { (scope : Scope) (name : List ℕ) (items : List Item)
        → symbol_of scope name ≡ Some (Define items)
        → value_of scope (Some name) items ≡ value_of_name scope name }
{}

/// A name's bytes, as they are in the source, are a text.
pub fn a_name_is_a_text()
    ensures { (source : List ℕ) (token : Token) → IsTokenOf source token → token.kind ≡ kind.Name
        → IsUtf8 (slice_range source token.first (token.first + token.length)) }
{}

/// An expression that is read is a tree in postfix order, so each operation has its operands, and its value is the tree's.
pub fn an_expression_is_a_tree()
    ensures tree { (source : List ℕ) (tokens : List Token) (from after : ℕ) (items : List Item)
        → expression_at source tokens from ≡ Ok (items, after) → HasTree items }
    ensures value { (named : List ℕ → Result ℤ ValueKind) (tree : Tree)
        → worked_out named (postfix tree) [] ≡ tree_value named tree }
{}
