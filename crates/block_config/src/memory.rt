//! A program's words in the instruction memory.
ghost use Rattle.std.specs.Prelude.{◌≡◌, ◌≤◌, is_some};
ghost use Rattle.std.specs.List.{list_all};
ghost use Rattle.pio_encode.specs.Relocation.{relocated};
ghost use Rattle.block_config.specs.Memory as spec;

use pio_encode::relocate;

/// Whether a program of these words can be loaded at an address: no word and no jump's target passes address 31.
pub fn fits_at(address: u8, words: &[u16]) -> bool
    requires { address ≤ 31 }
    ensures { result ≡ spec.fits_at address words.now }
{
    usize::from(address) + words.len() <= 32 && jumps_fit(address, words)
}

/// Whether no jump's target passes address 31.
fn jumps_fit(address: u8, words: &[u16]) -> bool
    requires { address ≤ 31 }
    ensures { result ≡ list_all (λ word. is_some (relocated word address)) words.now }
{
    words.iter().all(|word| jump_fits(address, *word))
}

/// Whether a word is no jump past address 31.
fn jump_fits(address: u8, word: u16) -> bool
    requires { address ≤ 31 }
    ensures { result ≡ is_some (relocated word address) }
{
    relocate(word, address).is_some()
}

/// The word at an address of a program whose first word is loaded at another.
fn word_at(first: u8, words: &[u16], address: usize) -> Option<u16>
    requires { first ≤ 31 }
    ensures { result ≡ spec.word_at first words.now address }
{
    if address < usize::from(first) {
        return None;
    }
    match words.get(address - usize::from(first)) {
        Some(word) => relocate(*word, first),
        None => None,
    }
}

/// The memory with a program loaded at an address.
pub fn loaded(memory: &[u16; 32], first: u8, words: &[u16]) -> [u16; 32]
    requires { first ≤ 31 }
    ensures { result ≡ spec.loaded memory.now first words.now }
{
    let mut after = [0; 32];
    for address in 0..32 {
        after[address] = word_at(first, words, address).unwrap_or(memory[address]);
    }
    after
}
