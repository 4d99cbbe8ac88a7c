//! All that an instruction can do to a context, apart from side-set.
ghost use Rattle.std.specs.Prelude.{◌≡◌, ◌∷◌, [], ◌<◌};
ghost use Rattle.pio_encode.specs.Ranges.{IsInRange};
ghost use Rattle.span_step.specs.Outcomes as spec;

use crate::context::Context;
use crate::levels::written_to;
use crate::outcome::ContextOutcome;
use arrayvec::ArrayVec;
use pin_matrix::{MachineSetup, Mapping, PinSignal, Span, is_signal, writes_of};
use pio_encode::{
    Act, Condition, MovDestination, MovOperation, MovSource, OutDestination, SetDestination,
};

/// At most four: a value that isn't known may leave each of two pins at either level.
pub(crate) type Outcomes = ArrayVec<ContextOutcome, 4>;

/// All that an instruction can do: nothing where no address is known after it.
#[tactic(auto, unfolding(crate::specs::Outcomes::outcomes))]
pub(crate) fn outcomes(act: Act, machine: &MachineSetup, span: &Span, context: &Context) -> Outcomes
    requires { IsInRange act }
    ensures { result.items ≡ spec.outcomes act machine.now span.now context.now }
{
    match act {
        Act::Jmp { condition, address } => jmp_outcomes(condition, address, context),
        Act::Out { destination, .. } => out_outcomes(destination, machine, span, context),
        Act::Mov {
            destination,
            operation,
            source,
        } => mov_outcomes(
            destination,
            copied(operation, source, context),
            machine,
            span,
            context,
        ),
        Act::Set { destination, value } => set_outcomes(destination, value, machine, span, context),
        _ => one(ContextOutcome::nothing_done(context)),
    }
}

/// This outcome alone.
fn one(outcome: ContextOutcome) -> Outcomes
    ensures { result.items ≡ outcome ∷ [] }
{
    let mut outcomes = Outcomes::new();
    outcomes.push(outcome);
    outcomes
}

/// These two outcomes.
fn two(first: ContextOutcome, second: ContextOutcome) -> Outcomes
    ensures { result.items ≡ first ∷ second ∷ [] }
{
    let mut outcomes = Outcomes::new();
    outcomes.push(first);
    outcomes.push(second);
    outcomes
}

/// A JMP that is known to be taken, or not, has one outcome; any other has both.
fn jmp_outcomes(condition: Condition, address: u8, context: &Context) -> Outcomes
    requires { address < 32 }
    ensures { result.items
        ≡ spec.ways (spec.taken condition context.now) address (spec.after_count condition context.now) }
{
    let falls = after_count(condition, context);
    let jumps = ContextOutcome {
        jump: Some(address),
        ..falls
    };
    match taken(condition, context) {
        Some(true) => one(jumps),
        Some(false) => one(falls),
        None => two(jumps, falls),
    }
}

/// Whether a JMP is taken, where it is known.
fn taken(condition: Condition, context: &Context) -> Option<bool>
    ensures { result ≡ spec.taken condition context.now }
{
    match condition {
        Condition::Always => Some(true),
        Condition::XZero => is_zero(context.x),
        Condition::XDecrement => is_nonzero(context.x),
        Condition::YZero => is_zero(context.y),
        Condition::YDecrement => is_nonzero(context.y),
        Condition::XNotY => differ(context.x, context.y),
        Condition::Pin => None,
        Condition::OsrNotEmpty => None,
    }
}

/// Whether a number is 0, where it is known.
fn is_zero(known: Option<u16>) -> Option<bool>
    ensures { result ≡ spec.is_zero known }
{
    match known {
        Some(number) => Some(number == 0),
        None => None,
    }
}

/// Whether a number isn't 0, where it is known.
fn is_nonzero(known: Option<u16>) -> Option<bool>
    ensures { result ≡ spec.is_nonzero known }
{
    match known {
        Some(number) => Some(number != 0),
        None => None,
    }
}

/// Whether two numbers differ, where both are known.
fn differ(x: Option<u16>, y: Option<u16>) -> Option<bool>
    ensures { result ≡ spec.differ x y }
{
    match (x, y) {
        (Some(x), Some(y)) => Some(x != y),
        _ => None,
    }
}

/// What a JMP does whether it is taken or not: `x--` and `y--` count down.
fn after_count(condition: Condition, context: &Context) -> ContextOutcome
    ensures { result ≡ spec.after_count condition context.now }
{
    let mut outcome = ContextOutcome::nothing_done(context);
    match condition {
        Condition::XDecrement => outcome.x = counted_down(context.x),
        Condition::YDecrement => outcome.y = counted_down(context.y),
        _ => {}
    }
    outcome
}

/// One less; nothing is known after a 0, which falls to 2^32 - 1.
fn counted_down(known: Option<u16>) -> Option<u16>
    ensures { result ≡ spec.counted_down known }
{
    match known {
        Some(number) if number != 0 => Some(number - 1),
        _ => None,
    }
}

/// OUT: the bits aren't known.
fn out_outcomes(
    destination: OutDestination,
    machine: &MachineSetup,
    span: &Span,
    context: &Context,
) -> Outcomes
    ensures { result.items ≡ spec.out_outcomes destination machine.now span.now context.now }
{
    let mut outcome = ContextOutcome::nothing_done(context);
    match destination {
        OutDestination::Pins => return unknown_pins(PinSignal::Level, machine, span, context),
        OutDestination::Pindirs => {
            return unknown_pins(PinSignal::Direction, machine, span, context);
        }
        OutDestination::Pc => return Outcomes::new(),
        OutDestination::Exec => return Outcomes::new(),
        OutDestination::X => outcome.x = None,
        OutDestination::Y => outcome.y = None,
        _ => {}
    }
    one(outcome)
}

/// What is known of the word that a MOV copies: of X, Y or NULL, as long as no operation changes it.
fn copied(operation: MovOperation, source: MovSource, context: &Context) -> Option<u16>
    ensures { result ≡ spec.copied operation source context.now }
{
    match (operation, source) {
        (MovOperation::Plain, MovSource::X) => context.x,
        (MovOperation::Plain, MovSource::Y) => context.y,
        (MovOperation::Plain, MovSource::Null) => Some(0),
        _ => None,
    }
}

/// MOV of a word of which this is known.
fn mov_outcomes(
    destination: MovDestination,
    word: Option<u16>,
    machine: &MachineSetup,
    span: &Span,
    context: &Context,
) -> Outcomes
    ensures { result.items ≡ spec.mov_outcomes destination word machine.now span.now context.now }
{
    let mut outcome = ContextOutcome::nothing_done(context);
    match destination {
        MovDestination::Pins => return unknown_pins(PinSignal::Level, machine, span, context),
        MovDestination::Pc => return Outcomes::new(),
        MovDestination::Exec => return Outcomes::new(),
        MovDestination::X => outcome.x = word,
        MovDestination::Y => outcome.y = word,
        _ => {}
    }
    one(outcome)
}

/// SET: the value is known.
fn set_outcomes(
    destination: SetDestination,
    value: u8,
    machine: &MachineSetup,
    span: &Span,
    context: &Context,
) -> Outcomes
    requires { value < 32 }
    ensures { result.items ≡ spec.set_outcomes destination value machine.now span.now context.now }
{
    let mut outcome = ContextOutcome::nothing_done(context);
    match destination {
        SetDestination::Pins => return set_pins(PinSignal::Level, value, machine, span, context),
        SetDestination::Pindirs => {
            return set_pins(PinSignal::Direction, value, machine, span, context);
        }
        SetDestination::X => outcome.x = Some(u16::from(value)),
        SetDestination::Y => outcome.y = Some(u16::from(value)),
    }
    one(outcome)
}

/// SET PINS and SET PINDIRS.
fn set_pins(
    signal: PinSignal,
    value: u8,
    machine: &MachineSetup,
    span: &Span,
    context: &Context,
) -> Outcomes
    requires { value < 32 }
    ensures { result.items ≡ spec.set_pins signal value machine.now span.now context.now ∷ [] }
{
    let write = written_to(signal, &machine.set, value, span);
    one(writing(context, write.from, write.to))
}

/// OUT PINS, MOV PINS and OUT PINDIRS: each pin of the mapping may be left either way, and both events' pins alike where they
/// are one.
fn unknown_pins(
    signal: PinSignal,
    machine: &MachineSetup,
    span: &Span,
    context: &Context,
) -> Outcomes
    ensures { result.items ≡ spec.unknown_pins signal machine.now span.now context.now }
{
    let from_held = is_held(signal, span.from_signal, &machine.out, span.from_pin);
    let to_held = is_held(signal, span.to_signal, &machine.out, span.to_pin);
    let low = Some(false);
    let high = Some(true);
    if has_one_pin(span) {
        if from_held {
            two(writing(context, low, low), writing(context, high, high))
        } else {
            one(writing(context, None, None))
        }
    } else {
        match (from_held, to_held) {
            (false, false) => one(writing(context, None, None)),
            (false, true) => two(writing(context, None, low), writing(context, None, high)),
            (true, false) => two(writing(context, low, None), writing(context, high, None)),
            (true, true) => {
                let mut outcomes = two(writing(context, low, low), writing(context, low, high));
                outcomes.push(writing(context, high, low));
                outcomes.push(writing(context, high, high));
                outcomes
            }
        }
    }
}

/// Whether both events are edges of one signal of one pin.
fn has_one_pin(span: &Span) -> bool
    ensures { result ≡ spec.has_one_pin span.now }
{
    span.from_pin == span.to_pin && has_one_signal(span.from_signal, span.to_signal)
}

/// Whether both events are edges of one signal.
fn has_one_signal(from: Option<PinSignal>, to: Option<PinSignal>) -> bool
    ensures { result ≡ spec.has_one_signal from to }
{
    match from {
        Some(signal) => is_signal(signal, to),
        None => false,
    }
}

/// It goes on, and writes this to the span's pins.
fn writing(context: &Context, from: Option<bool>, to: Option<bool>) -> ContextOutcome
    ensures { result ≡ record (spec.nothing_done context.now) { from = from; to = to } }
{
    ContextOutcome {
        from,
        to,
        ..ContextOutcome::nothing_done(context)
    }
}

/// Whether a value that goes to a mapping writes the watched signal of a pin (0 to 31).
fn is_held(written: PinSignal, watched: Option<PinSignal>, mapping: &Mapping, pin: u8) -> bool
    requires { pin < 32 }
    ensures { result ≡ spec.is_held written watched mapping.now pin }
{
    is_signal(written, watched) && holds(mapping, pin)
}

/// Whether a mapping holds a pin (0 to 31).
fn holds(mapping: &Mapping, pin: u8) -> bool
    requires { pin < 32 }
    ensures { result ≡ spec.holds mapping.now pin }
{
    (writes_of(mapping, 0).0 >> pin) % 2 == 1
}

/// Whether no address is known after the instruction.
#[tactic(auto, unfolding(crate::specs::Outcomes::is_wild))]
pub(crate) fn is_wild(act: Act) -> bool
    ensures { result ≡ spec.is_wild act }
{
    match act {
        Act::Out { destination, .. } => match destination {
            OutDestination::Pc => true,
            OutDestination::Exec => true,
            _ => false,
        },
        Act::Mov { destination, .. } => match destination {
            MovDestination::Pc => true,
            MovDestination::Exec => true,
            _ => false,
        },
        _ => false,
    }
}

/// Whether the instruction may wait.
#[tactic(auto, unfolding(crate::specs::Outcomes::may_stall))]
pub(crate) fn may_stall(act: Act, machine: &MachineSetup) -> bool
    ensures { result ≡ spec.may_stall act machine.now }
{
    match act {
        Act::Wait { .. } => true,
        Act::In { .. } => machine.autopush,
        Act::Out { .. } => machine.autopull,
        Act::Push { block, .. } => block,
        Act::Pull { block, .. } => block,
        Act::Irq { clear, wait, .. } => !clear && wait,
        _ => false,
    }
}
