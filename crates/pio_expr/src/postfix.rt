//! An expression that is read: what is written of it, and what waits.
ghost use Rattle.std.specs.Prelude.{◌≡◌, ℕ, ◌+◌, ◌<◌, ◌++◌, [], List, length, slice_get, IfOk, OnOk, IfErr, None, true, false};
ghost use Rattle.std.specs.List.{All};
ghost use Rattle.pio_lex.specs.declared.token.Token.{Token};
ghost use Rattle.pio_lex.specs.Tokens.{IsTokenOf};
ghost use Rattle.pio_expr.specs.Marks.{mark_at};
ghost use Rattle.pio_expr.specs.Turns.{innermost, is_reverse, is_level, first_before, all_before, kept_before, opened, sign_at, reverse_at, opening, turn_by, close_by, operation_of};
ghost use Rattle.pio_expr.specs.Waiting.{openings, IsSound, GoesOn, answer_of, HasExprFault};

use crate::fault::ExprRefusal;
use crate::mark::{TokenMark, mark_at};
use crate::token_item::token_item;
use crate::turn::Turn;
use crate::waiting::Waiting;
use crate::{ExprFault, ExprKind, Item};
use pio_lex::Token;
use std::alloc::Global;
use std::collections::VecDeque;

/// The most openings at once.
pub const MOST_OPEN: usize = 64;

/// An expression that is read.
#[derive(Drop)]
pub struct ExprReading {
    /// What is written of it, in postfix order.
    pub items: Vec<Item>,
    /// What waits for what comes after it, the innermost in front.
    pub waiting: VecDeque<Waiting>,
}

impl ExprReading {
    /// Nothing is written, and nothing waits. It takes no memory.
    pub fn new(alloc: Global) -> Self
        ensures items { result.items.items ≡ [] }
        ensures waiting { result.waiting.items ≡ [] }
    {
        ExprReading {
            items: Vec::new(alloc),
            waiting: VecDeque::new(alloc),
        }
    }

    /// Reads one more token; whether an operand is wanted after it, or nothing where the expression ends before it.
    pub fn step(
        &mut self,
        alloc: Global,
        source: &[u8],
        tokens: &[Token],
        at: usize,
        wanted: bool,
    ) -> Result<Option<bool>, ExprFault>
        requires tokens { All (IsTokenOf source.now) tokens.now }
        requires sound { IsSound self.old.waiting.items }
        ensures ok { IfOk result (GoesOn source.now tokens.now self.old wanted at self.new) }
        ensures ends { IfOk result (λ next. next ≡ None → wanted ≡ false) }
        ensures fault { IfErr result
            (λ fault. HasExprFault (answer_of source.now tokens.now self.old wanted at) fault) }
    {
        let mark = mark_at(tokens, at);
        if !wanted {
            return self.after(mark, at);
        }
        Ok(Some(self.operand(alloc, source, tokens, at, mark)?))
    }

    /// Reads a token where an operand is wanted; whether another is wanted after it.
    fn operand(
        &mut self,
        alloc: Global,
        source: &[u8],
        tokens: &[Token],
        at: usize,
        mark: TokenMark,
    ) -> Result<bool, ExprFault>
        requires tokens { All (IsTokenOf source.now) tokens.now }
        requires mark { mark ≡ mark_at tokens.now at }
        requires sound { IsSound self.old.waiting.items }
        ensures ok { IfOk result (λ wanted. answer_of source.now tokens.now self.old true at
            ≡ answer_of source.now tokens.now self.new wanted (at + 1)) }
        ensures sound { OnOk result (IsSound self.new.waiting.items) }
        ensures inside { OnOk result (at < length tokens.now) }
        ensures fault { IfErr result
            (λ fault. HasExprFault (answer_of source.now tokens.now self.old true at) fault) }
    {
        let Some(token) = token_at(tokens, at) else {
            return Err(told(refusal(at, ExprKind::Syntax)));
        };
        match self.opening(mark, at) {
            Ok(Some(opening)) => {
                self.waiting.push_front(opening)?;
                Ok(true)
            }
            Ok(None) => {
                self.items.push(token_item(alloc, source, &token)?)?;
                Ok(false)
            }
            Err(refusal) => Err(told(refusal)),
        }
    }

    /// Reads a token after an operand; whether an operand is wanted after it, or nothing where the expression ends before it.
    fn after(&mut self, mark: TokenMark, at: usize) -> Result<Option<bool>, ExprFault>
        requires sound { IsSound self.old.waiting.items }
        ensures ok { (source : List ℕ) (tokens : List Token) → mark_at tokens at ≡ mark
            → IfOk result (GoesOn source tokens self.old false at self.new) }
        ensures fault { (source : List ℕ) (tokens : List Token) → mark_at tokens at ≡ mark
            → IfErr result (λ fault. HasExprFault (answer_of source tokens self.old false at) fault) }
    {
        self.write_before(mark)?;
        match self.turn(mark, at) {
            Ok(Turn::Operation(operation)) => {
                self.waiting.push_front(operation)?;
                Ok(Some(true))
            }
            Ok(Turn::Closed) => {
                let _ = self.waiting.pop_front();
                Ok(Some(false))
            }
            Ok(Turn::End) => Ok(None),
            Err(refusal) => Err(told(refusal)),
        }
    }

    /// What a token opens where an operand is wanted: nothing, where it is a value.
    fn opening(&self, mark: TokenMark, at: usize) -> Result<Option<Waiting>, ExprRefusal>
        ensures { result ≡ opening mark at self.now.waiting.items }
    {
        match mark {
            TokenMark::Value => Ok(None),
            TokenMark::Open => self.opened(at, Waiting::Paren),
            TokenMark::Minus => self.sign(at),
            TokenMark::Reverse => self.reverse(at),
            _ => Err(refusal(at, ExprKind::Syntax)),
        }
    }

    fn sign(&self, at: usize) -> Result<Option<Waiting>, ExprRefusal>
        ensures { result ≡ sign_at at self.now.waiting.items }
    {
        if is_reverse(self.innermost()) {
            return Err(refusal(at, ExprKind::Syntax));
        }
        self.opened(at, Waiting::Negate)
    }

    fn reverse(&self, at: usize) -> Result<Option<Waiting>, ExprRefusal>
        ensures { result ≡ reverse_at at self.now.waiting.items }
    {
        let innermost = self.innermost();
        if is_reverse(innermost) {
            Err(refusal(at, ExprKind::Syntax))
        } else if is_level(innermost) {
            self.opened(at, Waiting::Reverse(at))
        } else if self.openings() < MOST_OPEN {
            Err(refusal(at, ExprKind::Ambiguous))
        } else {
            Err(refusal(at, ExprKind::TooDeep))
        }
    }

    fn opened(&self, at: usize, opening: Waiting) -> Result<Option<Waiting>, ExprRefusal>
        ensures { result ≡ opened at self.now.waiting.items opening }
    {
        if self.openings() < MOST_OPEN {
            Ok(Some(opening))
        } else {
            Err(refusal(at, ExprKind::TooDeep))
        }
    }

    fn openings(&self) -> usize
        ensures { result ≡ openings self.now.waiting.items }
    {
        self.waiting
            .iter()
            .filter(|waiting| waiting.opens())
            .count()
    }

    fn innermost(&self) -> Option<Waiting>
        ensures { result ≡ innermost self.now.waiting.items }
    {
        self.waiting.front().copied()
    }

    /// Writes what is complete before a token after an operand.
    fn write_before(&mut self, mark: TokenMark) -> Result<(), ExprFault>
        ensures items { OnOk result
            (self.new.items.items ≡ self.old.items.items ++ all_before self.old.waiting.items mark) }
        ensures waiting { OnOk result (self.new.waiting.items ≡ kept_before self.old.waiting.items mark) }
        ensures memory { IfErr result (λ fault. fault ≡ ExprFault.Memory) }
    {
        while let Some(item) = first_before(self.innermost(), mark) {
            self.items.push(item)?;
            let _ = self.waiting.pop_front();
        }
        Ok(())
    }

    /// What a token does after an operand, where nothing is left to write before it.
    fn turn(&self, mark: TokenMark, at: usize) -> Result<Turn, ExprRefusal>
        ensures { result ≡ turn_by (operation_of mark) (innermost self.now.waiting.items) mark at }
    {
        match (Waiting::operation(mark), self.innermost()) {
            (Some(_), Some(Waiting::Reverse(place))) => Err(refusal(place, ExprKind::Ambiguous)),
            (Some(operation), _) => Ok(Turn::Operation(operation)),
            (None, None) => Ok(Turn::End),
            (None, Some(_)) => close(mark, at),
        }
    }
}

fn token_at(tokens: &[Token], at: usize) -> Option<Token>
    ensures { result ≡ slice_get tokens.now at }
{
    tokens.get(at).copied()
}

fn close(mark: TokenMark, at: usize) -> Result<Turn, ExprRefusal>
    ensures { result ≡ close_by mark at }
{
    match mark {
        TokenMark::Close => Ok(Turn::Closed),
        _ => Err(refusal(at, ExprKind::Syntax)),
    }
}

fn first_before(innermost: Option<Waiting>, mark: TokenMark) -> Option<Item>
    ensures { result ≡ first_before innermost mark }
{
    innermost?.item_before(mark)
}

fn is_reverse(innermost: Option<Waiting>) -> bool
    ensures { result ≡ is_reverse innermost }
{
    matches!(innermost, Some(Waiting::Reverse(_)))
}

fn is_level(innermost: Option<Waiting>) -> bool
    ensures { result ≡ is_level innermost }
{
    matches!(innermost, None | Some(Waiting::Paren))
}

fn refusal(place: usize, kind: ExprKind) -> ExprRefusal
    ensures { result ≡ record { place = place; kind = kind } }
{
    ExprRefusal { place, kind }
}

fn told(refusal: ExprRefusal) -> ExprFault
    ensures { result ≡ ExprFault.At refusal.place refusal.kind }
{
    ExprFault::At {
        place: refusal.place,
        kind: refusal.kind,
    }
}
