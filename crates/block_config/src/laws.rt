//! Laws of the definitions, each on a function that does nothing.
ghost use Rattle.std.specs.Prelude.{◌≡◌, ℕ, ◌+◌, ◌<◌, ◌≤◌, List, Option, Some, Ok, false, length, map, slice_index};
ghost use Rattle.toml.specs.Data.{Items, Members};
ghost use Rattle.pio_assemble.specs.Program.{Assembled, assembled_of};
ghost use Rattle.pio_assemble.specs.declared.program.Program as program;
ghost use Rattle.pin_matrix.specs.declared.setup.Setup as setup;
ghost use Rattle.block_config.specs.Apart.{AreApart};
ghost use Rattle.setup_keys.specs.Block.{MachineKeys, keys_of_block};
ghost use Rattle.block_config.specs.Config.{config_block, config_setup_of, said_of, second_setup_of};
ghost use Rattle.block_config.specs.Default.{default_block, default_setup_of};
ghost use Rattle.block_config.specs.Exact.{OwnsExactly, SaysExactly};
ghost use Rattle.block_config.specs.Loads.{all_loads, is_covered, memory_of};
ghost use Rattle.block_config.specs.Machines.{load_at, machine_of_table};
ghost use Rattle.block_config.specs.Memory.{no_words};
ghost use Rattle.block_config.specs.Owning.{OwningKeys};
ghost use Rattle.block_config.specs.Programs.{Loaded};
ghost use Rattle.block_config.specs.SetupOf.{setup_of};
ghost use Rattle.block_config.specs.declared.pins.BlockNumber.TheVariants.{First, Second};
ghost use Rattle.block_config.specs.Spans.{load_of_machine};

/// A setup is what it says: of the numbers of a setup, the definitions make that setup again.
pub fn a_setup_is_what_it_says()
    ensures { (s : setup.Setup) → length s.machines ≡ 4 → setup_of (keys_of_block s) ≡ s }
{}

/// Nothing that a configuration says is clipped: its setup says exactly these numbers, machine by machine and field by
/// field, these pins, and these spans with their names, bounds and stalls.
pub fn a_configuration_is_not_clipped()
    ensures { (bytes : List ℕ) (programs : List program.Program)
        → SaysExactly (config_setup_of bytes (map assembled_of programs))
        (config_block bytes (map assembled_of programs)) }
{}

/// Nothing that the configuration of a second block says is clipped, and the block owns exactly the pins that it says.
pub fn a_second_configuration_is_not_clipped()
    ensures { (bytes : List ℕ) (programs : List program.Program)
        → OwnsExactly (second_setup_of bytes (map assembled_of programs))
        (said_of Second bytes (map assembled_of programs)) }
{}

/// A second block's configuration says nothing of the outside, and a first one's nothing of owned pins.
pub fn each_block_keeps_to_its_keys()
    ensures outside { (bytes : List ℕ) (programs : List Assembled) (k : OwningKeys)
        → said_of Second bytes programs ≡ Ok k → k.block.high ≡ 0 }
    ensures own { (bytes : List ℕ) (programs : List Assembled) (k : OwningKeys)
        → said_of First bytes programs ≡ Ok k → k.own ≡ 0 }
{}

/// Nothing that the default says is clipped.
pub fn the_default_is_not_clipped()
    ensures { (programs : List program.Program)
        → SaysExactly (default_setup_of (map assembled_of programs))
        (default_block (map assembled_of programs)) }
{}

/// No address is covered by two of a configuration's loads.
pub fn loads_share_no_address()
    ensures { (programs : List Assembled) (tables : Items) (loads : List Loaded)
        → all_loads programs tables ≡ Ok loads → AreApart loads }
{}

/// Memory is 0x0000 where no load has a word.
pub fn memory_outside_all_loads_is_0()
    ensures { (loads : List Loaded) (address : ℕ) → address < 32 → is_covered loads address ≡ false
        → slice_index (memory_of no_words loads) address ≡ 0 }
{}

/// A machine starts in the load of the program that it runs, and in no other.
pub fn a_machine_starts_in_its_program()
    ensures { (machines : List (Option MachineKeys)) (loads : List Loaded) (t : Members)
        (m : MachineKeys) (l : Loaded) → AreApart loads → load_at loads t ≡ Ok l
        → 1 ≤ length l.program.words → l.address + length l.program.words ≤ 32
        → machine_of_table machines loads t ≡ Ok m → load_of_machine loads (Some m) ≡ Some l }
{}
