//! A table of the checker.
ghost use Rattle.std.specs.Prelude.{◌≡◌, ◌<◌, ◌∷◌, ◌++◌, [], IfOk, IsTrue, length};
ghost use Rattle.span_step.specs.Contexts.{is_placed};
ghost use Rattle.span_bounds.specs.Numbers.{contexts, number_of};
ghost use Rattle.span_bounds.specs.Tables as spec;
ghost use Rattle.span_bounds.specs.Tables.{EachRow, IsTable};

use crate::entry::Entry;
use crate::grid::Grid;
use crate::number;
use crate::row::Row;
use crate::rows::Rows;
use pin_matrix::Follow;
use span_step::{Ages, Context};
use std::alloc::{AllocError, Global};
use std::marker::Model;

/// Contexts with their ages, each context once. It keeps an entry for each context, and is seen as the list of its rows in context
/// order, with how far X and Y are followed.
#[derive(Drop)]
pub struct Table {
    follow: Follow,
    grid: Grid,
}

impl Model for Table {
    ghost use Rattle.std.specs.Prelude.{◌≡◌, length};
    ghost use Rattle.span_bounds.specs.Numbers.{contexts};
    ghost use Rattle.span_bounds.specs.Tables.{FollowedRows, rows_from};

    ghost Value = { FollowedRows };

    ghost view = { λ t. record {
      follow = t.follow;
      rows = rows_from t.follow 0 t.grid;
    } };

    ghost invariant = { λ t. length t.grid ≡ contexts t.follow };
}

impl Table {
    /// The table whose rows these are, where X and Y are followed so far.
    pub(crate) fn of(follow: Follow, grid: Grid) -> Table
        requires { length grid ≡ contexts follow }
        ensures { result ≡ record { follow = follow; rows = spec.rows_from follow 0 grid } }
    {
        Table { follow, grid }
    }

    /// The table without rows, with room for any. The error is out of memory.
    pub fn new(alloc: Global, follow: Follow) -> Result<Table, AllocError>
        ensures { IfOk result (λ table. table ≡ record { follow = follow; rows = [] }) }
    {
        let grid = Grid::new(alloc, number::contexts(follow))?;
        Ok(Table { follow, grid })
    }

    /// Adds a row whose context comes after those of all rows. It takes no memory.
    pub fn push(&mut self, row: Row)
        requires placed { IsTrue (is_placed self.old.follow row.context.address row.context.x row.context.y) }
        requires last { EachRow (λ r. number_of self.old.follow r.context < number_of self.old.follow row.context) self.old.rows }
        ensures { self.new ≡ record { follow = self.old.follow; rows = self.old.rows ++ row ∷ [] } }
    {
        let number = number::number_of(self.follow, &row.context);
        self.grid.put(number, Entry::Present(row.ages));
    }

    /// How far X and Y are followed in it.
    pub fn follow(&self) -> Follow
        ensures { result ≡ self.now.follow }
    {
        self.follow
    }

    /// Its rows, in context order.
    pub fn rows(&self) -> Rows<'_>
        ensures rows { result ≡ self.now.rows }
        ensures table { IsTable self.now.follow self.now.rows }
    {
        Rows::of(self.follow, &self.grid)
    }

    /// The ages that a context has, if it has a row.
    #[tactic(auto, using(crate::proofs::Grids::looked_up))]
    pub fn ages(&self, context: &Context) -> Option<Ages>
        ensures { result ≡ spec.ages_of (spec.entry_of self.now.follow self.now.rows context.now) }
    {
        if !number::is_placed(self.follow, context) {
            return None;
        }
        match self.grid.at(number::number_of(self.follow, context)) {
            Entry::Absent => None,
            Entry::Present(ages) => Some(ages),
        }
    }
}
