//! The fetches that failed: how many, and the name of the last one.
ghost use Rattle.std.specs.Prelude.{◌≡◌, None};
ghost use Rattle.pio_edge.specs.Count.{after_answer};

use crate::shelf::Fetch;
use std::alloc::Global;
use std::marker::Model;

// Failed fetches, counted up to `u64::MAX`.
#[derive(Drop)]
pub(crate) struct Failures {
    count: u64,
    last: Option<String>,
}

impl Model for Failures {
    ghost use Rattle.std.specs.Prelude.{option_map, string_bytes};
    ghost use Rattle.pio_edge.specs.Count.{Faults, faults_code};

    ghost Value = { Faults };

    ghost coded = { faults_code };

    ghost view = { λ f. record { count = f.count; last = option_map string_bytes f.last } };
}

impl Failures {
    // None so far.
    pub(crate) const fn none() -> Self
        ensures { result ≡ record { count = 0; last = None } }
    {
        Failures {
            count: 0,
            last: None,
        }
    }

    // How many there were.
    pub(crate) fn count(&self) -> u64
        ensures { result ≡ self.now.count }
    {
        self.count
    }

    // Counts one, keeps its name, and answers Failed. Where there is no memory for the name, that is the answer, and
    // nothing is counted.
    pub(crate) fn note(&mut self, alloc: Global, name: &str) -> Fetch
        ensures { self.new ≡ after_answer name.now result self.old }
    {
        match String::from_str(alloc, name) {
            Ok(name) => {
                self.count = self.count.saturating_add(1);
                self.last = Some(name);
                Fetch::Failed
            }
            Err(_) => Fetch::Memory,
        }
    }
}
