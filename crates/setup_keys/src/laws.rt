//! Laws of the definitions, each on a function that does nothing.
ghost use Rattle.std.specs.Prelude.{◌≡◌, length};
ghost use Rattle.pin_matrix.specs.declared.setup.Setup as setup;
ghost use Rattle.pio_encode.specs.declared.rule.SideRule as rule;
ghost use Rattle.setup_keys.specs.Block.{BlockKeys, keys_of_block};
ghost use Rattle.setup_keys.specs.Clipped.{clipped_block};
ghost use Rattle.setup_keys.specs.InRange.{IsBlock};
ghost use Rattle.setup_keys.specs.Rule.{RuleKeys, clipped_rule, keys_of_rule};

/// Each rule in numbers, brought into range, is what a side-set rule says.
pub fn a_clipped_rule_has_a_rule()
    ensures { (k : RuleKeys) → (r : rule.SideRule) × (keys_of_rule r ≡ clipped_rule k) }
{}

/// Each block in numbers, brought into range, is what a setup says.
pub fn a_clipped_block_has_a_setup()
    ensures { (k : BlockKeys) → (s : setup.Setup) × (keys_of_block s ≡ clipped_block k) }
{}

/// No two setups say the same.
pub fn setups_that_say_the_same_are_one()
    ensures { (s t : setup.Setup) → keys_of_block s ≡ keys_of_block t → s ≡ t }
{}

/// What a setup of four places says is in range.
pub fn what_a_setup_says_is_in_range()
    ensures { (s : setup.Setup) → length s.machines ≡ 4 → IsBlock (keys_of_block s) }
{}

/// What is in range is not clipped.
pub fn a_block_in_range_is_not_clipped()
    ensures { (k : BlockKeys) → IsBlock k → clipped_block k ≡ k }
{}
