//! Verdicts on programs with a span.
use crate::programs::{keys_of, setup_of, told_of};
use crate::setups::{is_configured, span_of};
use pin_matrix::{Setup, Span};
use span_bounds::{Cause, Context, Table};
use span_check::{check, recheck};
use span_texts::{Finding, found_by};
use span_verdict::Verdict;
use std::alloc::{AllocError, Global};

/// Adds what a row says of its verdict, and the verdict.
pub fn tell_verdict(
    alloc: Global,
    lines: &str,
    expected: &mut String,
    seen: &mut String,
) -> Option<()> {
    expected.push_str(told_of(lines)?).ok()?;
    let keys = keys_of(lines)?;
    let span = span_of(alloc, &keys, "a")?;
    let setup = setup_of(alloc, lines, &keys)?;
    tell_checked(alloc, &setup, &span, seen)
}

fn tell_checked(alloc: Global, setup: &Setup, span: &Span, text: &mut String) -> Option<()> {
    if !is_configured(setup, span) {
        return None;
    }
    match check(alloc, setup, span).ok()? {
        Verdict::Proved {
            table,
            opens,
            closes,
        } => {
            let passes = recheck(&table, setup, span);
            let finding = finding_of(table, opens, closes, span)?;
            tell_proved(finding, passes, text).ok()
        }
        Verdict::Unproved(context, cause) => tell_unproved(&context, cause, text).ok(),
        Verdict::Shared(machine) => write!(text, "shared by machine {machine}").ok(),
    }
}

/// What the line of a proved span says.
fn finding_of(table: Table, opens: bool, closes: bool, span: &Span) -> Option<Finding> {
    let proved = Verdict::Proved {
        table,
        opens,
        closes,
    };
    found_by(proved, span).ok()
}

/// Adds whether the span opens, where that is told whether it closes and under which premises, and whether its
/// table passes.
fn tell_proved(finding: Finding, passes: bool, text: &mut String) -> Result<(), AllocError> {
    let how = if finding.opens {
        "opens"
    } else {
        "never opens"
    };
    let ends = match finding.closes {
        None => "",
        Some(true) => " and closes",
        Some(false) => " and never closes",
    };
    let premise = match (finding.prompt, finding.assumes) {
        (false, false) => "",
        (true, false) => " under prompt",
        (false, true) => " under assume",
        (true, true) => " under prompt, assume",
    };
    let flaw = if passes {
        ""
    } else {
        ", but its table doesn't pass"
    };
    write!(text, "proved, {how}{ends}{premise}{flaw}")
}

/// Adds the first bad context's address, X and from-level, and its cause.
fn tell_unproved(context: &Context, cause: Cause, text: &mut String) -> Result<(), AllocError> {
    write!(text, "unproved at {}", context.address)?;
    match context.x {
        Some(x) => write!(text, " x {x}")?,
        None => text.push_str(" x any")?,
    }
    write!(text, " from {}: {cause:?}", u8::from(context.from))
}
