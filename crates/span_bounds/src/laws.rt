//! Laws of tables, each on a function that does nothing.
ghost use Rattle.std.specs.Prelude.{◌≡◌, ℕ, ◌<◌, List, true};
ghost use Rattle.pin_matrix.specs.declared.setup.Setup as setup;
ghost use Rattle.pin_matrix.specs.declared.span.Span as span;
ghost use Rattle.std.specs.List.{Contains};
ghost use Rattle.span_step.specs.declared.ages.Ages as ages;
ghost use Rattle.pin_matrix.specs.declared.assume.Follow as follow;
ghost use Rattle.span_step.specs.Contexts as places;
ghost use Rattle.span_step.specs.Contexts.{is_placed};
ghost use Rattle.span_bounds.specs.declared.entry.Entry.TheVariants.{Present};
ghost use Rattle.span_bounds.specs.declared.row.Row as row;
ghost use Rattle.span_bounds.specs.Numbers.{contexts, number_of, context_at};
ghost use Rattle.span_bounds.specs.Tables.{IsLeast, IsTable, entry_at};

/// A context in range has a number below how many there are, and is the one at its number.
pub fn each_context_has_its_number()
    ensures below { (d : follow.Follow) (k : places.Context) → is_placed d k.address k.x k.y ≡ true → number_of d k < contexts d }
    ensures context { (d : follow.Follow) (k : places.Context) → is_placed d k.address k.x k.y ≡ true → context_at d (number_of d k) ≡ k }
    ensures number { (d : follow.Follow) (n : ℕ) → number_of d (context_at d n) ≡ n }
{}

/// What a table says of a context is said by a row of it.
pub fn each_entry_is_that_of_a_row()
    ensures { (d : follow.Follow) (rows : List row.Row) (k : places.Context) (a : ages.Ages)
        → IsTable d rows → is_placed d k.address k.x k.y ≡ true → entry_at d rows (number_of d k) ≡ Present a
        → Contains rows (record { context = k; ages = a }) }
{}

/// The least closed table exists, good or not, and there is one alone.
pub fn a_least_closed_table_exists()
    ensures exists { (u : setup.Setup) (sp : span.Span) → (rows : List row.Row) × IsLeast u sp rows }
    ensures one { (u : setup.Setup) (sp : span.Span) (rows others : List row.Row)
        → IsLeast u sp rows → IsLeast u sp others → rows ≡ others }
{}
