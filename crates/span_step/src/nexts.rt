//! The contexts that can come next, one by one.
use crate::narrowing::{Narrowing, knowing};
use crate::stepped::Next;
use std::marker::Model;

/// Those that are left to come: for each end of a course all that may be known of X and Y there.
#[derive(Drop)]
pub struct Nexts<'a> {
    ends: &'a [Next],
    narrowing: Narrowing,
    /// Of which end the next one is.
    place: usize,
    /// Its place among those of this end.
    turn: usize,
}

impl<'a> Model for Nexts<'a> {
    ghost use Rattle.std.specs.Prelude.{List};
    ghost use Rattle.span_step.specs.declared.stepped.Next.{Next};
    ghost use Rattle.span_step.specs.Narrowing as spec;

    ghost Value = { List Next };

    ghost view = { λ n. spec.nexts_left n.narrowing n.ends.now n.place n.turn };

    ghost invariant = { λ n. spec.IsTurn n.narrowing n.ends.now n.place n.turn };
}

impl<'a> Nexts<'a> {
    ghost use Rattle.std.specs.Prelude.{◌≡◌};
    ghost use Rattle.span_step.specs.Narrowing as spec;

    /// All that can come next after these ends.
    pub(crate) fn of(ends: &'a [Next], narrowing: Narrowing) -> Nexts<'a>
        ensures { result ≡ spec.all_narrowed narrowing ends.now }
    {
        Nexts {
            ends,
            narrowing,
            place: 0,
            turn: 0,
        }
    }
}

impl<'a> Iterator for Nexts<'a> {
    ghost use Rattle.std.specs.Iterator.{YieldsFirst, item_count};

    type Item = Next;

    ghost next_gives = { YieldsFirst (λ nexts. nexts) };

    ghost remaining = { item_count (λ nexts. nexts) };

    fn next(&mut self) -> Option<Next> {
        self.take_first()
    }
}

impl<'a> Nexts<'a> {
    ghost use Rattle.std.specs.Iterator.{YieldsFirst};

    /// Takes the next one: where nothing is assumed, an end itself.
    fn take_first(&mut self) -> Option<Next>
        ensures { YieldsFirst (λ nexts. nexts) self.old result self.new }
    {
        if self.narrowing.is_wide() {
            let end = self.ends.get(self.place)?;
            self.place += 1;
            return Some(*end);
        }
        self.take_narrowed()
    }

    /// The same where something is assumed.
    fn take_narrowed(&mut self) -> Option<Next>
        ensures { YieldsFirst (λ nexts. nexts) self.old result self.new }
    {
        while self.place < self.ends.len() {
            let end = &self.ends[self.place];
            let xs = self.narrowing.xs(end);
            let ys = self.narrowing.ys(end);
            let count = xs.len() * ys.len();
            let turn = self.turn;
            if turn + 1 < count {
                self.turn = turn + 1;
            } else {
                self.place += 1;
                self.turn = 0;
            }
            if turn < count {
                return Some(knowing(end, xs.at(turn / ys.len()), ys.at(turn % ys.len())));
            }
        }
        None
    }
}
