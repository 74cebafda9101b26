//! The owners that have died.
ghost use Rattle.std.specs.Prelude.{◌≡◌, [], true, false};
ghost use Rattle.model.specs.Families.Indices.Robust.Dead.{has_died, dead_with};

use std::alloc::Global;
use std::collections::BTreeSet;
use std::marker::Model;
use steps::enums::OwnerId;

/// The owners that have died, by number. One is looked up and added in logarithmic time.
#[derive(Drop)]
pub struct Dead {
    owners: BTreeSet<u64>,
}

impl Model for Dead {
    ghost use Rattle.std.specs.Prelude.{ℕ, List};

    ghost Value = { List ℕ };

    ghost view = { λ d. d.owners.keys };
}

impl Dead {
    /// No owner has died.
    pub fn new(alloc: Global) -> Dead
        ensures { result ≡ [] }
    {
        Dead {
            owners: BTreeSet::new(alloc),
        }
    }

    /// Whether this owner has died.
    pub fn has(&self, owner: OwnerId) -> bool
        ensures { result ≡ has_died owner self.now }
    {
        self.has_number(owner.value())
    }

    /// The same by its number.
    pub fn has_number(&self, number: u64) -> bool
        ensures { result ≡ has_died number self.now }
    {
        self.owners.contains(&number)
    }

    /// This owner has died too, unless memory for it is refused. Then nothing changes.
    pub fn add(&mut self, owner: OwnerId) -> bool
        ensures added { result ≡ true → self.new ≡ dead_with owner self.old }
        ensures same { result ≡ false → self.new ≡ self.old }
    {
        self.owners.insert(owner.value()).is_ok()
    }
}
