//! An expression: its numbers, names and operations in postfix order.
ghost use Rattle.std.specs.Prelude.{◌≡◌, IfOk};

use pio_encode::Name;
use std::alloc::{AllocError, Global};
use std::marker::Model;

/// One item of an expression in postfix order. An operation takes what comes before it.
#[derive(Drop)]
pub enum Item {
    /// 0 to 2147483647, as it was written.
    Number(i32),
    /// The value of a symbol.
    Name(Name),
    Add,
    Subtract,
    Multiply,
    /// The quotient, cut off toward zero.
    Divide,
    /// What a sign `-` makes of the value after it.
    Negate,
    /// The 32 bits in the opposite order, `::`.
    Reverse,
}

impl Item {
    /// One of its own. The error is want of memory.
    fn copy(&self, alloc: Global) -> Result<Self, AllocError>
        ensures { IfOk result (λ copy. copy ≡ self.now) }
    {
        Ok(match self {
            Item::Number(value) => Item::Number(*value),
            Item::Name(name) => Item::Name(name.copy(alloc)?),
            Item::Add => Item::Add,
            Item::Subtract => Item::Subtract,
            Item::Multiply => Item::Multiply,
            Item::Divide => Item::Divide,
            Item::Negate => Item::Negate,
            Item::Reverse => Item::Reverse,
        })
    }
}

/// An expression, seen as the list of its items in postfix order.
#[derive(Drop)]
pub struct Expr {
    items: Vec<Item>,
}

impl Model for Expr {
    ghost use Rattle.std.specs.Prelude.{List};
    ghost use Rattle.pio_expr.specs.declared.expr.Item.{Item};

    ghost Value = { List Item };

    ghost view = { λ e. e.items.items };
}

impl Expr {
    pub(crate) fn new(items: Vec<Item>) -> Self
        ensures { result ≡ items.items }
    {
        Expr { items }
    }

    /// One of its own. The error is want of memory.
    pub fn copy(&self, alloc: Global) -> Result<Self, AllocError>
        ensures { IfOk result (λ copy. copy ≡ self.now) }
    {
        let mut items = Vec::with_capacity(alloc, self.items.len())?;
        for item in &self.items {
            items.push(item.copy(alloc)?)?;
        }
        Ok(Expr { items })
    }

    /// Its items, in postfix order.
    pub fn items(&self) -> &[Item]
        ensures { result.now ≡ self.now }
    {
        &self.items
    }
}
