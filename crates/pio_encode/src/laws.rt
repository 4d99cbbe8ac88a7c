//! Laws of words and their readings, each on a function that does nothing.
ghost use Rattle.std.specs.Prelude.{◌≡◌, ℕ, ◌<◌, ◌^◌, Some};
ghost use Rattle.pio_encode.specs.Ranges.{OpFits};
ghost use Rattle.pio_encode.specs.Relocation.{moved_act, relocated};
ghost use Rattle.pio_encode.specs.Word.{reading_of, word_of};
ghost use Rattle.pio_encode.specs.declared.op.Op as op;
ghost use Rattle.pio_encode.specs.declared.rule.SideRule as rule;

/// Decoding undoes encoding: the reading of an instruction's word under the same rule is the instruction.
pub fn read_back()
    ensures { (op : op.Op) (rule : rule.SideRule) → OpFits op rule → reading_of (word_of op rule) rule ≡ op }
{}

/// An instruction's word has sixteen bits.
pub fn word_range()
    ensures { (op : op.Op) (rule : rule.SideRule) → OpFits op rule → word_of op rule < 2 ^ 16 }
{}

/// A relocated word means what it did before, but that a jump goes further on by the offset.
pub fn moved_reading()
    ensures { (word offset moved : ℕ) (rule : rule.SideRule) → relocated word offset ≡ Some moved →
        let old = reading_of word rule in
        reading_of moved rule ≡ record old { act = moved_act offset old.act } }
{}
