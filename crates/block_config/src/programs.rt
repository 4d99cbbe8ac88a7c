//! The programs that a configuration names, at their addresses, and their labels.
ghost use Rattle.std.specs.Prelude.{◌≡◌, ◌+◌, ◌<◌, ◌≤◌, IfSome, length};
ghost use Rattle.std.specs.Str.{bytes_eq};
ghost use Rattle.pio_assemble.specs.Program.{assembled_of};
ghost use Rattle.block_config.specs.Programs as spec;

use pio_assemble::{Program, ProgramSymbol};

/// A program that is loaded at an address.
#[derive(Clone, Copy)]
pub struct LoadedProgram<'a> {
    pub program: &'a Program,
    pub address: u8,
    pub ghost fits: { address + length program.now.words.items ≤ 32 },
}

impl<'a> LoadedProgram<'a> {
    ghost use Rattle.std.specs.Prelude.{map, option_copied, option_map};
    ghost use Rattle.std.specs.List.{find};
    ghost use Rattle.block_config.specs.Loads.{covers, loaded_of};

    /// The load of a program's name.
    pub fn find(loads: &[LoadedProgram<'a>], name: &[u8]) -> Option<LoadedProgram<'a>>
        ensures { option_map loaded_of result
            ≡ spec.find_loaded name.now (map loaded_of loads.now) }
    {
        Self::first(loads, name).copied()
    }

    fn first<'b>(loads: &'b [LoadedProgram<'a>], name: &[u8]) -> Option<&'b LoadedProgram<'a>>
        ensures { option_copied result
            ≡ find (λ l. bytes_eq l.program.now.name name.now) loads.now }
    {
        loads.iter().find(|load| is_named(load.program, name))
    }

    /// Whether one of its words has an address.
    pub fn covers(&self, address: u8) -> bool
        ensures { result ≡ covers (loaded_of self.now) address }
    {
        let end = usize::from(self.address) + self.program.words.len();
        self.address <= address && usize::from(address) < end
    }

    /// The load that covers an address.
    pub fn at(loads: &[LoadedProgram<'a>], address: u8) -> Option<LoadedProgram<'a>>
        ensures { option_map loaded_of result
            ≡ find (λ l. covers l address) (map loaded_of loads.now) }
    {
        Self::first_at(loads, address).copied()
    }

    fn first_at<'b>(loads: &'b [LoadedProgram<'a>], address: u8) -> Option<&'b LoadedProgram<'a>>
        ensures { option_copied result ≡ find (λ l. covers (loaded_of l) address) loads.now }
    {
        loads.iter().find(|load| load.covers(address))
    }
}

/// Whether a program has this name.
pub fn is_named(program: &Program, name: &[u8]) -> bool
    ensures { result ≡ bytes_eq program.now.name name.now }
{
    program.name.as_bytes() == name
}

/// The place of a label in its program: below the number of its words.
pub fn label_of(program: &Program, name: &[u8]) -> Option<u8>
    ensures place { result ≡ spec.label_of (assembled_of program.now) name.now }
    ensures within { IfSome result (λ place. place < length program.now.words.items) }
{
    match program.symbols.get(name) {
        Some(symbol) => place_of(program.words.as_slice(), symbol),
        None => None,
    }
}

/// The place of a symbol that a label made, and that comes before a word.
fn place_of(words: &[u16], symbol: &ProgramSymbol) -> Option<u8>
    requires { length words.now ≤ 32 }
    ensures place { result ≡ spec.symbol_place words.now symbol.now }
    ensures within { IfSome result (λ place. place < length words.now) }
{
    if !symbol.is_label {
        return None;
    }
    match u8::try_from(symbol.value) {
        Ok(place) if usize::from(place) < words.len() => Some(place),
        _ => None,
    }
}
