//! The rows of a table, one by one.
use crate::entry::Entry;
use crate::grid::Grid;
use crate::number::context_at;
use crate::row::Row;
use pin_matrix::Follow;
use std::marker::Model;

/// The rows that are left to come, in context order.
#[derive(Drop)]
pub struct Rows<'a> {
    follow: Follow,
    grid: &'a Grid,
    number: usize,
    end: usize,
}

impl<'a> Model for Rows<'a> {
    ghost use Rattle.std.specs.Prelude.{◌≡◌, ◌≤◌, List, drop, length};
    ghost use Rattle.span_bounds.specs.declared.row.Row.{Row};
    ghost use Rattle.span_bounds.specs.Numbers.{contexts};
    ghost use Rattle.span_bounds.specs.Tables.{rows_from};

    ghost Value = { List Row };

    ghost view = { λ r. rows_from r.follow r.number (drop r.number r.grid.now) };

    ghost invariant = { λ r. (r.number ≤ r.end) × ((r.end ≡ length r.grid.now) × (length r.grid.now ≡ contexts r.follow)) };
}

impl<'a> Rows<'a> {
    ghost use Rattle.std.specs.Prelude.{◌≡◌, length};
    ghost use Rattle.span_bounds.specs.Numbers.{contexts};
    ghost use Rattle.span_bounds.specs.Tables.{rows_from};

    /// All rows of a table.
    pub(crate) fn of(follow: Follow, grid: &'a Grid) -> Rows<'a>
        requires { length grid.now ≡ contexts follow }
        ensures { result ≡ rows_from follow 0 grid.now }
    {
        Rows {
            follow,
            grid,
            number: 0,
            end: grid.len(),
        }
    }
}

impl<'a> Iterator for Rows<'a> {
    ghost use Rattle.std.specs.Iterator.{YieldsFirst, item_count};

    type Item = Row;

    ghost next_gives = { YieldsFirst (λ rows. rows) };

    ghost remaining = { item_count (λ rows. rows) };

    fn next(&mut self) -> Option<Row> {
        while self.number < self.end {
            let number = self.number;
            self.number += 1;
            if let Entry::Present(ages) = self.grid.at(number) {
                return Some(Row {
                    context: context_at(self.follow, number),
                    ages,
                });
            }
        }
        None
    }
}
