//! Working an expression out, frame by frame.
ghost use Rattle.std.specs.Prelude.{◌≡◌, ℕ, Option, None, List, [], nat_eq, OnOk, IfOk, IfErr};
ghost use Rattle.std.specs.List.{list_any, IsDistinct};
ghost use Rattle.std.specs.Map.{keys_of};
ghost use Rattle.pio_expr.specs.declared.expr.Item.{Item};
ghost use Rattle.pio_expr.specs.Values.{value_at, is_among, Gives};
ghost use Rattle.pio_expr.specs.Frames.{AreKept};
ghost use Rattle.pio_expr.specs.Work.{placed, IsOwn, IsRightSoFar, StepsTo, Waited, Finished, IsNewlyKept, kept_of};

use crate::frame::{Pause, StackFrame};
use crate::symbols::ScopeSymbols;
use crate::{Item, ValueFault};
use indexmap::IndexMap;
use std::alloc::Global;
use std::collections::{HashSet, VecDeque};
use std::mem::replace;

/// The frames of an expression that is being worked out.
#[derive(Drop)]
pub struct Work<'a> {
    pub top: StackFrame<'a>,
    /// The frames that wait for the one above them.
    pub below: VecDeque<StackFrame<'a>>,
    /// The places of the symbols whose frames have begun.
    pub begun: HashSet<usize>,
}

/// The value of an expression: of the symbol at this place, or of none.
///
/// Each symbol is worked out once, and its value kept; nothing recurses.
pub fn work_out(
    alloc: Global,
    symbols: &ScopeSymbols,
    kept: &mut IndexMap<usize, i32>,
    own: Option<usize>,
    items: &[Item],
) -> Result<i32, ValueFault>
    requires own { IsOwn symbols.now own items.now }
    requires kept { AreKept symbols.now kept.old.entries }
    ensures value { Gives result (value_at symbols.now own items.now) }
    ensures kept { AreKept symbols.now kept.new.entries }
{
    if let Some(value) = kept_value(kept, own) {
        return Ok(value);
    }
    let mut work = Work::new(alloc, symbols, kept, own, items)?;
    loop {
        if let Some(answer) = work.step(alloc, symbols, kept).transpose() {
            return answer;
        }
    }
}

/// The value that is kept of a symbol.
fn kept_value(kept: &IndexMap<usize, i32>, own: Option<usize>) -> Option<i32>
    ensures value { result ≡ kept_of kept.now.entries own }
    ensures unique { IsDistinct nat_eq (keys_of kept.now.entries) }
{
    let _unique = kept.len();
    match own {
        Some(place) => kept.get(&place).copied(),
        None => None,
    }
}

/// The set of this place, or of none.
fn begun_with(alloc: Global, own: Option<usize>) -> Result<HashSet<usize>, ValueFault>
    ensures ok { IfOk result (λ begun. (q : ℕ)
        → list_any (nat_eq q) begun.keys ≡ is_among (placed own []) q) }
    ensures memory { IfErr result (λ fault. fault ≡ ValueFault.Memory) }
{
    let mut begun = HashSet::new(alloc);
    match own {
        Some(place) => {
            begun.insert(place)?;
            Ok(begun)
        }
        None => Ok(begun),
    }
}

impl<'a> Work<'a> {
    /// Nothing is worked out yet.
    fn new(
        alloc: Global,
        symbols: &'a ScopeSymbols,
        kept: &IndexMap<usize, i32>,
        own: Option<usize>,
        items: &'a [Item],
    ) -> Result<Self, ValueFault>
        requires own { IsOwn symbols.now own items.now }
        requires kept { AreKept symbols.now kept.now.entries }
        requires unique { IsDistinct nat_eq (keys_of kept.now.entries) }
        requires new { kept_of kept.now.entries own ≡ None }
        ensures ok { IfOk result (IsRightSoFar symbols.now kept.now.entries own items.now) }
        ensures memory { IfErr result (λ fault. fault ≡ ValueFault.Memory) }
    {
        Ok(Work {
            begun: begun_with(alloc, own)?,
            top: StackFrame::new(alloc, symbols, own, items),
            below: VecDeque::new(alloc),
        })
    }

    /// Goes on until a value is wanted first, or a frame is done; the value, where it is that of the lowest frame.
    fn step(
        &mut self,
        alloc: Global,
        symbols: &'a ScopeSymbols,
        kept: &mut IndexMap<usize, i32>,
    ) -> Result<Option<i32>, ValueFault>
        ensures { (own : Option ℕ) (items : List Item)
            → IsRightSoFar symbols.now kept.old.entries own items self.old
            → StepsTo symbols.now own items kept.old.entries self.old kept.new.entries self.new result }
    {
        match self.top.run(alloc, symbols, kept, &self.begun)? {
            Pause::Waits(place, items) => {
                self.wait(alloc, symbols, place, items)?;
                Ok(None)
            }
            Pause::Done(value) => self.finish(kept, value),
        }
    }

    /// Begins the frame of a symbol that the top frame waits for.
    fn wait(
        &mut self,
        alloc: Global,
        symbols: &'a ScopeSymbols,
        place: usize,
        items: &'a [Item],
    ) -> Result<(), ValueFault>
        ensures ok { OnOk result (Waited symbols.now place items.now self.old self.new) }
        ensures memory { IfErr result (λ fault. fault ≡ ValueFault.Memory) }
    {
        self.begun.insert(place)?;
        let frame = StackFrame::new(alloc, symbols, Some(place), items);
        let waiting = replace(&mut self.top, frame);
        self.below.push_front(waiting)?;
        Ok(())
    }

    /// Keeps the value of the top frame's symbol, and leaves the frame; the value, where it is the lowest.
    fn finish(
        &mut self,
        kept: &mut IndexMap<usize, i32>,
        value: i32,
    ) -> Result<Option<i32>, ValueFault>
        ensures frames { IfOk result (Finished value self.old self.new) }
        ensures begun { self.new.begun ≡ self.old.begun }
        ensures kept { OnOk result (IsNewlyKept kept.old.entries self.old.top.place value kept.new.entries) }
        ensures memory { IfErr result (λ fault. (fault ≡ ValueFault.Memory) × (kept.new.entries ≡ kept.old.entries)) }
    {
        if let Some(place) = self.top.place {
            kept.insert(place, value)?;
        }
        match self.below.pop_front() {
            Some(frame) => {
                self.top = frame;
                Ok(None)
            }
            None => Ok(Some(value)),
        }
    }
}
