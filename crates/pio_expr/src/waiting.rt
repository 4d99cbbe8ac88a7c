//! What waits, while an expression is read, for what comes after it.
ghost use Rattle.std.specs.Prelude.{◌≡◌};
ghost use Rattle.pio_expr.specs.Turns.{item_before, operation_of, unless_product};
ghost use Rattle.pio_expr.specs.Waiting.{opens};

use crate::Item;
use crate::mark::TokenMark;

/// An opening, or an operation whose right operand isn't read yet.
#[derive(Clone, Copy, Drop)]
pub enum Waiting {
    Paren,
    Negate,
    /// A `::`, at this token.
    Reverse(usize),
    Multiply,
    Divide,
    Add,
    Subtract,
}

impl Waiting {
    /// The operation that a token is.
    pub fn operation(mark: TokenMark) -> Option<Self>
        ensures { result ≡ operation_of mark }
    {
        match mark {
            TokenMark::Star => Some(Waiting::Multiply),
            TokenMark::Slash => Some(Waiting::Divide),
            TokenMark::Plus => Some(Waiting::Add),
            TokenMark::Minus => Some(Waiting::Subtract),
            _ => None,
        }
    }

    /// Counts as open.
    pub fn opens(self) -> bool
        ensures { result ≡ opens self }
    {
        matches!(self, Waiting::Paren | Waiting::Negate | Waiting::Reverse(_))
    }

    /// What is written of it before a token after its operand.
    pub fn item_before(self, mark: TokenMark) -> Option<Item>
        ensures { result ≡ item_before self mark }
    {
        match self {
            Waiting::Paren => None,
            Waiting::Negate => Some(Item::Negate),
            Waiting::Reverse(_) => match mark {
                TokenMark::Star | TokenMark::Slash | TokenMark::Plus | TokenMark::Minus => None,
                _ => Some(Item::Reverse),
            },
            Waiting::Multiply => Some(Item::Multiply),
            Waiting::Divide => Some(Item::Divide),
            Waiting::Add => unless_product(mark, Item::Add),
            Waiting::Subtract => unless_product(mark, Item::Subtract),
        }
    }
}

/// An item, where the token isn't that of a product.
fn unless_product(mark: TokenMark, item: Item) -> Option<Item>
    ensures { result ≡ unless_product mark item }
{
    match mark {
        TokenMark::Star | TokenMark::Slash => None,
        _ => Some(item),
    }
}
