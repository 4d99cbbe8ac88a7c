//! What a line's fields after its word say, where they are in their ranges (choice of this profile).
ghost use Rattle.std.specs.Prelude.{◌≡◌, ℕ, ◌≤◌, ◌<◌, IfOk, IfSome, length, option_copied, option_map};
ghost use Rattle.dreq_pacing.specs.Lines.{IsActOf};
ghost use Rattle.dreq_pacing.specs.declared.verb.Verb.TheVariants.{Feed};
ghost use Rattle.dreq_pacing.specs.Form as spec;
ghost use Rattle.dreq_pacing.specs.Short as short;

use crate::fields::Fields;
use crate::line::{LineAct, Words};
use crate::number::{in_range, within};
use crate::verb::Verb;
use std::alloc::{AllocError, Global};

/// What the fields after the word `feed` say beside so many machines, unless one is missing or outside its range. The
/// error is want of memory.
#[tactic(auto, using(crate::proofs::Forms::second_field, crate::proofs::Forms::after_two))]
pub fn read_feed(alloc: Global, machines: u8, args: &Fields) -> Result<Option<LineAct>, AllocError>
    requires { 1 ≤ machines }
    ensures value { IfOk result (λ act. act ≡ spec.act_of machines Feed args.now.fields) }
    ensures range { IfOk result (λ act. IfSome act (IsActOf machines)) }
{
    let mut rest = args.again();
    let first = rest.next();
    let second = rest.next();
    read_feed_of(alloc, machines, first, second, &rest)
}

fn read_feed_of(
    alloc: Global,
    machines: u8,
    machine: Option<&[u8]>,
    every: Option<&[u8]>,
    words: &Fields,
) -> Result<Option<LineAct>, AllocError>
    requires { 1 ≤ machines }
    ensures value { IfOk result (λ act.
        act ≡ spec.feed_act machines (option_copied machine.entry) (option_copied every.entry) words.now.fields) }
    ensures range { IfOk result (λ act. IfSome act (IsActOf machines)) }
{
    let Some(machine) = number(machine, 0, u64::from(machines) - 1) else {
        return Ok(None);
    };
    let Some(every) = number(every, 1, 1_000_000) else {
        return Ok(None);
    };
    match read_words(alloc, words)? {
        Some(words) => Ok(Some(LineAct::Feed {
            machine: machine as u8,
            every: every as u32,
            words,
        })),
        None => Ok(None),
    }
}

/// The words of a feed, where there is one.
fn read_words(alloc: Global, fields: &Fields) -> Result<Option<Words>, AllocError>
    ensures value { IfOk result (λ words. words ≡ spec.words_of fields.now.fields) }
    ensures some { IfOk result (λ words. IfSome words (λ ws. 1 ≤ length ws)) }
{
    match read_all(alloc, fields)? {
        Some(words) => {
            if words.is_empty() {
                Ok(None)
            } else {
                Ok(Some(Words::new(words)))
            }
        }
        None => Ok(None),
    }
}

/// The words that the fields are.
fn read_all(alloc: Global, fields: &Fields) -> Result<Option<Vec<u32>>, AllocError>
    ensures { IfOk result (λ words. option_map (λ ws. ws.items) words ≡ spec.all_words fields.now.fields) }
{
    let mut rest = fields.again();
    let mut words = Vec::new(alloc);
    while let Some(field) = rest.next() {
        match in_range(field, 0, 0xffff_ffff) {
            Some(word) => words.push(word as u32)?,
            None => return Ok(None),
        }
    }
    Ok(Some(words))
}

/// The number of a field, where there is one from `low` to `high`.
fn number(field: Option<&[u8]>, low: u64, high: u64) -> Option<u64>
    requires { high ≤ 1000000000000 }
    ensures value { result ≡ spec.number low high (option_copied field.entry) }
    ensures range { IfSome result (λ n. (low ≤ n) × (n ≤ high)) }
{
    match field {
        Some(field) => in_range(field, low, high),
        None => None,
    }
}

/// What the numbers after another word say beside so many machines, unless one is missing or outside its range.
pub fn short_act(
    machines: u8,
    verb: Verb,
    first: Option<u64>,
    second: Option<u64>,
) -> Option<LineAct>
    requires { 1 ≤ machines }
    ensures value { result ≡ short.short_act machines verb first second }
    ensures range { IfSome result (IsActOf machines) }
{
    match verb {
        Verb::Pin => pin_act(first, second),
        Verb::Tx => tx_act(machines, first, second),
        Verb::Drain => drain_act(machines, first, second),
        Verb::Rx => Some(LineAct::Rx {
            machine: machine_of(machines, first)?,
        }),
        Verb::Enable => Some(LineAct::Enable {
            machine: machine_of(machines, first)?,
        }),
        Verb::Disable => Some(LineAct::Disable {
            machine: machine_of(machines, first)?,
        }),
        Verb::Restart => Some(LineAct::Restart {
            machine: machine_of(machines, first)?,
        }),
        Verb::Feed => None,
    }
}

fn pin_act(pin: Option<u64>, level: Option<u64>) -> Option<LineAct>
    ensures value { result ≡ short.pin_by pin level }
    ensures range { (machines : ℕ) → IfSome result (IsActOf machines) }
{
    let pin = within(pin, 0, 31)? as u8;
    let level = within(level, 0, 1)? == 1;
    Some(LineAct::Pin { pin, level })
}

fn tx_act(machines: u8, machine: Option<u64>, word: Option<u64>) -> Option<LineAct>
    requires { 1 ≤ machines }
    ensures value { result ≡ short.tx_by machines machine word }
    ensures range { IfSome result (IsActOf machines) }
{
    let machine = machine_of(machines, machine)?;
    let word = within(word, 0, 0xffff_ffff)? as u32;
    Some(LineAct::Tx { machine, word })
}

fn drain_act(machines: u8, machine: Option<u64>, every: Option<u64>) -> Option<LineAct>
    requires { 1 ≤ machines }
    ensures value { result ≡ short.drain_by machines machine every }
    ensures range { IfSome result (IsActOf machines) }
{
    let machine = machine_of(machines, machine)?;
    let every = within(every, 1, 1_000_000)? as u32;
    Some(LineAct::Drain { machine, every })
}

/// The machine of a number, where there is one of so many.
fn machine_of(machines: u8, number: Option<u64>) -> Option<u8>
    requires { 1 ≤ machines }
    ensures value { result ≡ short.machine_of machines number }
    ensures range { IfSome result (λ m. m < machines) }
{
    let machine = within(number, 0, u64::from(machines) - 1)?;
    Some(machine as u8)
}
