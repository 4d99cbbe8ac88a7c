//! Statements as short texts.
use pio_expr::{Expr, Item};
use pio_statement::{Code, Form, Instruction, Statement, Suffix};
use std::alloc::AllocError;
use std::fmt::Debug;

/// Adds a statement: its name, then its operands.
pub fn tell_statement(statement: &Statement, text: &mut String) -> Result<(), AllocError> {
    match statement {
        Statement::Nothing => text.push_str("Nothing"),
        Statement::Program(name) => write!(text, "Program {name}"),
        Statement::Define {
            public,
            name,
            value,
        } => {
            write!(text, "Define {public} {name} ")?;
            tell_expr(value, text)
        }
        Statement::Origin(address) => tell_with("Origin ", address, text),
        Statement::SideSet { bits, opt, pindirs } => {
            tell_with("SideSet ", bits, text)?;
            write!(text, " {opt} {pindirs}")
        }
        Statement::WrapTarget => text.push_str("WrapTarget"),
        Statement::Wrap => text.push_str("Wrap"),
        Statement::LangOpt => text.push_str("LangOpt"),
        Statement::PioVersion(version) => tell_with("PioVersion ", version, text),
        Statement::Label {
            public,
            name,
            code: None,
        } => write!(text, "Label {public} {name}"),
        Statement::Label {
            public,
            name,
            code: Some(code),
        } => {
            write!(text, "Label {public} {name} ")?;
            tell_code(code, text)
        }
        Statement::Code(code) => tell_code(code, text),
    }
}

/// Adds a word, then an expression.
fn tell_with(name: &str, value: &Expr, text: &mut String) -> Result<(), AllocError> {
    text.push_str(name)?;
    tell_expr(value, text)
}

fn tell_code(code: &Code, text: &mut String) -> Result<(), AllocError> {
    match code {
        Code::Word(value) => tell_with("Word ", value, text),
        Code::Instruction(Instruction { form, suffix }) => {
            tell_form(form, text)?;
            tell_suffix(suffix, text)
        }
    }
}

fn tell_form(form: &Form, text: &mut String) -> Result<(), AllocError> {
    match form {
        Form::Nop => text.push_str("Nop"),
        Form::Jmp { condition, target } => tell_operands("Jmp", condition, target, text),
        Form::Wait {
            polarity,
            source,
            index,
            relative,
        } => {
            tell_with("Wait ", polarity, text)?;
            write!(text, " {source:?} ")?;
            tell_expr(index, text)?;
            write!(text, " {relative}")
        }
        Form::In { source, count } => tell_operands("In", source, count, text),
        Form::Out { destination, count } => tell_operands("Out", destination, count, text),
        Form::Push { if_full, block } => write!(text, "Push {if_full} {block}"),
        Form::Pull { if_empty, block } => write!(text, "Pull {if_empty} {block}"),
        Form::Mov {
            destination,
            operation,
            source,
        } => write!(text, "Mov {destination:?} {operation:?} {source:?}"),
        Form::Irq {
            mode,
            index,
            relative,
        } => {
            tell_operands("Irq", mode, index, text)?;
            write!(text, " {relative}")
        }
        Form::Set { destination, value } => tell_operands("Set", destination, value, text),
    }
}

/// Adds a form's name, an operand and an expression.
fn tell_operands<D: Debug>(
    name: &str,
    operand: &D,
    value: &Expr,
    text: &mut String,
) -> Result<(), AllocError> {
    write!(text, "{name} {operand:?} ")?;
    tell_expr(value, text)
}

fn tell_suffix(suffix: &Suffix, text: &mut String) -> Result<(), AllocError> {
    match suffix {
        Suffix::None => Ok(()),
        Suffix::Side(side) => tell_with(" side ", side, text),
        Suffix::Delay(delay) => tell_with(" delay ", delay, text),
        Suffix::SideDelay { side, delay } => {
            tell_with(" side ", side, text)?;
            tell_with(" delay ", delay, text)
        }
        Suffix::DelaySide { delay, side } => {
            tell_with(" delay ", delay, text)?;
            tell_with(" side ", side, text)
        }
    }
}

/// Adds an expression in postfix order: a blank between two operands, `~` for a sign.
pub fn tell_expr(expr: &Expr, text: &mut String) -> Result<(), AllocError> {
    for (place, item) in expr.items().iter().enumerate() {
        let gap = if place == 0 { "" } else { " " };
        tell_item(item, gap, text)?;
    }
    Ok(())
}

fn tell_item(item: &Item, gap: &str, text: &mut String) -> Result<(), AllocError> {
    match item {
        Item::Number(number) => write!(text, "{gap}{number}"),
        Item::Name(name) => write!(text, "{gap}{name}"),
        Item::Add => text.push_str("+"),
        Item::Subtract => text.push_str("-"),
        Item::Multiply => text.push_str("*"),
        Item::Divide => text.push_str("/"),
        Item::Negate => text.push_str("~"),
        Item::Reverse => text.push_str(":"),
    }
}
