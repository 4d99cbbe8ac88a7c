//! Arrays of a configuration: how many elements one has, and what each of them has to be.
ghost use Rattle.std.specs.Prelude.{◌≡◌};
ghost use Rattle.std.specs.List.{list_all};
ghost use Rattle.toml.specs.View.{items_view, view};
ghost use Rattle.block_config.specs.Arrays as spec;
ghost use Rattle.block_config.specs.Arrays.{all_items, count_items};

use toml::Value;

/// What an element has to be.
#[derive(Clone, Copy)]
pub enum Element {
    Table,
    Number,
    Text,
}

/// How many elements an array has.
pub fn count_of(values: &[Value]) -> usize
    ensures { result ≡ count_items (items_view values.now) }
{
    values.len()
}

/// Whether each element is one of these.
pub fn are_all(values: &[Value], element: Element) -> bool
    ensures { result ≡ all_items (spec.is_one element) (items_view values.now) }
{
    are_each(values, element)
}

/// Whether each element is one of these.
fn are_each(values: &[Value], element: Element) -> bool
    ensures { result ≡ list_all (λ v. spec.is_one element (view v)) values.now }
{
    values.iter().all(|value| is_one(value, element))
}

/// Whether a value is one of these.
fn is_one(value: &Value, element: Element) -> bool
    ensures { result ≡ spec.is_one element (view value.now) }
{
    match element {
        Element::Table => value.is_table(),
        Element::Number => value.is_integer(),
        Element::Text => value.is_str(),
    }
}
