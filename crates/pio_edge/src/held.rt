//! A name with the bytes under it, and how a name is found among them.
ghost use Rattle.std.specs.Prelude.{◌≡◌, ◌==◌, Some, IfSome};
ghost use Rattle.std.specs.List.{list_any};
ghost use Rattle.std.specs.Option.{option_map};
ghost use Rattle.std.specs.FinMap.{get};
ghost use Rattle.pio_edge.specs.Stock.{found_at};
ghost use Rattle.pio_edge.specs.Held.{files_of};

use std::collections::VecDeque;

// A name and the bytes under it.
#[derive(Drop)]
pub(crate) struct Held {
    pub(crate) name: String,
    pub(crate) bytes: Vec<u8>,
}

// What the call finds: nothing where it is listed.
pub(crate) fn found<'a>(
    held: &'a VecDeque<Held>,
    name: &str,
    fails: &[u64],
    call: u64,
) -> Option<&'a [u8]>
    ensures found { option_map (λ b. b.now) result ≡
        found_at fails.now call (get (files_of held.now.items) name.now) }
    ensures held { IfSome result (λ b. get (files_of held.now.items) name.now ≡ Some b.now) }
{
    if is_listed(fails, call) {
        return None;
    }
    look_up(held, name)
}

// Whether a call is listed.
fn is_listed(fails: &[u64], call: u64) -> bool
    ensures { result ≡ list_any (λ n. n == call) fails.now }
{
    fails.iter().any(|n| *n == call)
}

// The bytes that are held under the name.
fn look_up<'a>(held: &'a VecDeque<Held>, name: &str) -> Option<&'a [u8]>
    ensures { option_map (λ b. b.now) result ≡ get (files_of held.now.items) name.now }
{
    for entry in held {
        if name == entry.name.as_str() {
            return Some(&entry.bytes);
        }
    }
    None
}
