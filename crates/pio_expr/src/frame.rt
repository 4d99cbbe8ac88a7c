//! An expression that is being worked out.
ghost use Rattle.std.specs.Prelude.{◌≡◌, List, [], ℕ, ℤ, Result, Ok, OnOk, IfOk, IfErr};
ghost use Rattle.std.specs.HashSet.{contains};
ghost use Rattle.std.specs.Prelude.{nat_eq};
ghost use Rattle.pio_expr.specs.declared.fault.ValueKind.{ValueKind};
ghost use Rattle.pio_expr.specs.declared.fault.ValueKind.TheVariants.{Unknown, Cycle};
ghost use Rattle.pio_expr.specs.Values.{number_by, left_by, first_of, after_first, worked_out, Tells};
ghost use Rattle.pio_expr.specs.Frames.{is_local, looked_up, looked_at, Looks, Agrees, Shows, WaitsAtName};

use crate::arithmetic::{add, divide, multiply, negate, reverse, subtract};
use crate::symbols::ScopeSymbols;
use crate::{Item, Symbol, ValueFault, ValueKind};
use indexmap::IndexMap;
use pio_encode::Name;
use std::alloc::{AllocError, Global};
use std::collections::{HashSet, VecDeque};

/// An expression that is being worked out.
#[derive(Drop)]
pub struct StackFrame<'a> {
    /// The place of the symbol whose expression it is, if it is one's.
    pub place: Option<usize>,
    /// Names are looked up in the program first.
    pub local: bool,
    /// The items that are left.
    pub rest: &'a [Item],
    /// The numbers before them, the last in front.
    pub numbers: VecDeque<i32>,
}

/// What an item asks for.
#[derive(Drop)]
pub enum Named<'a> {
    /// Nothing: it has this number, if it is a name.
    Number(i32),
    /// The value of the define at this place, with this expression.
    Define(usize, &'a [Item]),
}

/// Why a frame stops.
#[derive(Drop)]
pub enum Pause<'a> {
    /// The value of the define at this place, with this expression, is wanted.
    Waits(usize, &'a [Item]),
    /// Its expression has this value.
    Done(i32),
}

impl<'a> StackFrame<'a> {
    /// The expression of the symbol at this place, or of none; nothing is worked out yet.
    pub fn new(
        alloc: Global,
        symbols: &ScopeSymbols,
        place: Option<usize>,
        items: &'a [Item],
    ) -> Self
        ensures place { result.place ≡ place }
        ensures local { result.local ≡ is_local symbols.now place }
        ensures rest { result.rest.now ≡ items.now }
        ensures numbers { result.numbers.items ≡ [] }
    {
        StackFrame {
            place,
            local: is_local(symbols, place),
            rest: items,
            numbers: VecDeque::new(alloc),
        }
    }

    /// Works its items out, up to the end or to a name whose value isn't kept.
    pub fn run(
        &mut self,
        alloc: Global,
        symbols: &'a ScopeSymbols,
        kept: &IndexMap<usize, i32>,
        under: &HashSet<usize>,
    ) -> Result<Pause<'a>, ValueFault>
        ensures shows { (named : List ℕ → Result ℤ ValueKind)
            → Agrees (looked_up symbols.now kept.now.entries (contains nat_eq under.now) self.old.local) named
            → Shows named self.new result (worked_out named self.old.rest.now self.old.numbers.items) }
        ensures rests { WaitsAtName (looked_up symbols.now kept.now.entries (contains nat_eq under.now) self.old.local)
            self.new result }
        ensures place { self.new.place ≡ self.old.place }
        ensures local { self.new.local ≡ self.old.local }
    {
        while let Some((item, rest)) = self.rest.split_first() {
            let named = match look_at(alloc, symbols, kept, under, self.local, item)? {
                Named::Number(number) => number,
                Named::Define(place, items) => return Ok(Pause::Waits(place, items)),
            };
            match apply(item, named, &mut self.numbers) {
                Ok(number) => self.numbers.push_front(number)?,
                Err(kind) => return Err(ValueFault::Found(kind)),
            }
            self.rest = rest;
        }
        Ok(Pause::Done(take(&mut self.numbers)))
    }
}

/// The names of the expression at this place are looked up in the program first.
fn is_local(symbols: &ScopeSymbols, place: Option<usize>) -> bool
    ensures { result ≡ is_local symbols.now place }
{
    match place {
        Some(place) => symbols.in_program(place),
        None => true,
    }
}

/// What an item asks for.
fn look_at<'a>(
    alloc: Global,
    symbols: &'a ScopeSymbols,
    kept: &IndexMap<usize, i32>,
    under: &HashSet<usize>,
    local: bool,
    item: &Item,
) -> Result<Named<'a>, ValueFault>
    ensures { Looks result
        (looked_at (looked_up symbols.now kept.now.entries (contains nat_eq under.now) local) item.now) }
{
    match item {
        Item::Name(name) => look_up(alloc, symbols, kept, under, local, name),
        _ => Ok(Named::Number(0)),
    }
}

/// What a name asks for.
fn look_up<'a>(
    alloc: Global,
    symbols: &'a ScopeSymbols,
    kept: &IndexMap<usize, i32>,
    under: &HashSet<usize>,
    local: bool,
    name: &Name,
) -> Result<Named<'a>, ValueFault>
    ensures { Looks result
        (looked_up symbols.now kept.now.entries (contains nat_eq under.now) local name.now) }
{
    match symbols.found(local, name) {
        None => Err(unknown(alloc, name)),
        Some((_, Symbol::Label(words))) => Ok(Named::Number(*words as i32)),
        Some((place, Symbol::Define(expr))) => match kept.get(&place) {
            Some(value) => Ok(Named::Number(*value)),
            None if under.contains(&place) => Err(cycle(alloc, name)),
            None => Ok(Named::Define(place, expr.items())),
        },
    }
}

/// The fault of a name that no symbol has.
pub fn unknown(alloc: Global, name: &Name) -> ValueFault
    ensures { Tells result (Unknown name.now) }
{
    match name.copy(alloc) {
        Ok(name) => ValueFault::Found(ValueKind::Unknown(name)),
        Err(_) => ValueFault::Memory,
    }
}

/// The fault of a name whose own value is being worked out.
fn cycle(alloc: Global, name: &Name) -> ValueFault
    ensures { Tells result (Cycle name.now) }
{
    match name.copy(alloc) {
        Ok(name) => ValueFault::Found(ValueKind::Cycle(name)),
        Err(_) => ValueFault::Memory,
    }
}

/// What an item makes of the numbers before it, which are taken away; a name has this number.
fn apply(item: &Item, named: i32, numbers: &mut VecDeque<i32>) -> Result<i32, ValueKind>
    ensures number { result ≡ number_by (λ _. Ok named) item.now numbers.old.items }
    ensures left { numbers.new.items ≡ left_by item.now numbers.old.items }
{
    match item {
        Item::Number(number) => Ok(*number),
        Item::Name(_) => Ok(named),
        Item::Negate => negate(take(numbers)),
        Item::Reverse => Ok(reverse(take(numbers))),
        _ => {
            let right = take(numbers);
            let left = take(numbers);
            match item {
                Item::Add => add(left, right),
                Item::Subtract => subtract(left, right),
                Item::Multiply => multiply(left, right),
                _ => divide(left, right),
            }
        }
    }
}

/// Takes the last number; 0, where there is none.
fn take(numbers: &mut VecDeque<i32>) -> i32
    ensures value { result ≡ first_of numbers.old.items }
    ensures left { numbers.new.items ≡ after_first numbers.old.items }
{
    numbers.pop_front().unwrap_or(0)
}
