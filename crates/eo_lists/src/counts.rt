//! How often items occur.
ghost use Rattle.std.specs.Prelude.{◌≡◌, ◌<◌, ◌^◌, ℕ, suc, nat_eq, IfOk, OnOk, if◌then◌else◌};
ghost use Rattle.eo_lists.specs.Lists.{times};
ghost use Rattle.eo_lists.specs.Parts.{counted, CountsOne};

use eo_term::Id;
use indexmap::IndexMap;
use std::alloc::{AllocError, Global};
use std::marker::Model;

/// How often ids were counted.
#[derive(Drop)]
pub(crate) struct Counts {
    found: IndexMap<Id, usize>,
}

impl Model for Counts {
    ghost use Rattle.std.specs.Prelude.{ℕ, List};

    ghost Value = { List (ℕ × ℕ) };

    ghost view = { λ a. a.found.entries };
}

impl Counts {
    fn new(alloc: Global) -> Counts
        ensures { (k : ℕ) → counted result k ≡ 0 }
    {
        Counts {
            found: IndexMap::new(alloc),
        }
    }

    /// How often the id was counted.
    pub(crate) fn of(&self, id: Id) -> usize
        ensures { result ≡ counted self.now id }
    {
        self.found.get(&id).copied().unwrap_or(0)
    }

    // Counts the id.
    fn add(&mut self, id: Id) -> Result<(), AllocError>
        requires { counted self.old id < 2 ^ 63 }
        ensures { OnOk result (CountsOne id self.old self.new) }
    {
        let before = self.of(id);
        self.found.insert(id, before + 1)?;
        Ok(())
    }
}

/// How often each item occurs.
pub(crate) fn count(alloc: Global, items: &[Id]) -> Result<Counts, AllocError>
    ensures { IfOk result (λ c. (k : ℕ) → counted c k ≡ times nat_eq k items.now) }
{
    let mut counts = Counts::new(alloc);
    for item in items {
        counts.add(*item)?;
    }
    Ok(counts)
}
