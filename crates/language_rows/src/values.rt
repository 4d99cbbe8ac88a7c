//! What an expression is worth under symbols.
use pio_encode::Name;
use pio_expr::{Expr, Scope, Symbol, ValueFault, ValueKind, parse_expr};
use pio_lex::tokens;
use std::alloc::{AllocError, Global};

/// Adds what an expression is worth under symbols: the source has the globals, then the program's symbols where a program
/// has begun, then the expression, with a newline between blanks after each.
pub fn tell_value(alloc: Global, source: &[u8], text: &mut String) -> Option<()> {
    let row = String::from_utf8_lossy(alloc, source).ok()?;
    let mut scope = Scope::new(alloc);
    tell_value_in(alloc, &mut scope, row.as_str(), text)
}

fn tell_value_in(alloc: Global, scope: &mut Scope, row: &str, text: &mut String) -> Option<()> {
    let (globals, rest) = row.split_once(" \n ")?;
    add_symbols(alloc, scope, globals)?;
    match rest.split_once(" \n ") {
        Some((locals, asked)) => {
            scope.next_program();
            add_symbols(alloc, scope, locals)?;
            tell_worth(alloc, scope, asked, text)
        }
        None => tell_worth(alloc, scope, rest, text),
    }
}

/// Adds the symbols of a list whose names are new.
fn add_symbols(alloc: Global, scope: &mut Scope, list: &str) -> Option<()> {
    for symbol in list.split(", ") {
        if let Some((name, value)) = symbol.split_once(" = ") {
            let expr = expr_of(alloc, value)?;
            add(alloc, scope, name, Symbol::Define(expr)).ok()?;
        } else if let Some((name, number)) = symbol.split_once(": ") {
            let words = number.parse().ok()?;
            add(alloc, scope, name, Symbol::Label(words)).ok()?;
        }
    }
    Some(())
}

fn add(alloc: Global, scope: &mut Scope, name: &str, is: Symbol) -> Result<(), AllocError> {
    let name = Name::new(String::from_str(alloc, name)?);
    if scope.is_new(&name) {
        scope.set(&name, is)?;
    }
    Ok(())
}

fn expr_of(alloc: Global, text: &str) -> Option<Expr> {
    let tokens = tokens(alloc, text.as_bytes()).ok()?;
    let (expr, _) = parse_expr(alloc, text.as_bytes(), &tokens, 0).ok()?;
    Some(expr)
}

/// Adds what the expression is worth.
fn tell_worth(alloc: Global, scope: &mut Scope, asked: &str, text: &mut String) -> Option<()> {
    let expr = expr_of(alloc, asked)?;
    tell_worth_of(alloc, scope, &expr, asked, text)
}

/// The same when it is asked again, and what its name is worth, if it is one, is the same too.
fn tell_worth_of(
    alloc: Global,
    scope: &mut Scope,
    expr: &Expr,
    asked: &str,
    text: &mut String,
) -> Option<()> {
    tell_found(&scope.value(expr, None), text).ok()?;
    let is_same = is_told(alloc, &scope.value(expr, None), text.as_str()).ok()?;
    let is_named = is_told_of_name(alloc, scope, asked, text.as_str()).ok()?;
    if is_same && (expr.items().len() > 1 || is_named) {
        return Some(());
    }
    text.push_str(", then another").ok()
}

fn is_told_of_name(
    alloc: Global,
    scope: &mut Scope,
    asked: &str,
    told: &str,
) -> Result<bool, AllocError> {
    let name = Name::new(String::from_str(alloc, asked)?);
    is_told(alloc, &scope.value_of_name(&name), told)
}

fn is_told(alloc: Global, found: &Result<i32, ValueFault>, told: &str) -> Result<bool, AllocError> {
    let mut text = String::new(alloc);
    tell_found(found, &mut text)?;
    Ok(text.as_str() == told)
}

fn tell_found(found: &Result<i32, ValueFault>, text: &mut String) -> Result<(), AllocError> {
    match found {
        Ok(number) => write!(text, "{number}"),
        Err(ValueFault::Found(ValueKind::Unknown(name))) => write!(text, "unknown {name}"),
        Err(ValueFault::Found(ValueKind::Cycle(name))) => write!(text, "cycle {name}"),
        Err(ValueFault::Found(ValueKind::DivZero)) => text.push_str("division by zero"),
        Err(ValueFault::Found(ValueKind::Overflow)) => text.push_str("overflow"),
        Err(ValueFault::Memory) => Err(AllocError),
    }
}
