//! What C holds of a structure.
ghost use Rattle.std.specs.Prelude.{◌≡◌, None, Some, IfSome, IsSome};
ghost use Rattle.std.specs.declared.option.Option.{Option};
ghost use Rattle.std.specs.Coded.{coded_option};
ghost use Rattle.paglunet_c.specs.declared.held.Held.{Held};
ghost use Rattle.paglunet_c.specs.contracts.held.Held.{the_row as held_row};
ghost use Rattle.paglunet_c.specs.Handles.{owned};

use crate::held::Held;
use crate::loose::Loose;
use std::alloc::Global;
use std::marker::Model;

/// A pointer, which is the handle's own: C makes the handle of zeros, gives it to one call at a time, and neither reads
/// nor writes it. `held` is what lies there, or None where the handle is empty: not filled yet, or closed.
#[repr(C)]
pub struct Handle {
    at: *mut u8,
    pub ghost held: { Option Held } by { coded_option held_row.coded },
}

impl Model for Handle {
    ghost also_owns = { λ h. owned h.at h.held };
}

impl Handle {
    /// Takes out what the handle holds.
    pub(crate) fn take(&mut self, alloc: Global) -> Loose<Held, Global>
        requires { IsSome self.old.held }
        ensures held { IfSome self.old.held (λ v. result.value ≡ v) }
        ensures none { self.new.held ≡ None }
    {
        Loose {
            at: self.at.cast::<Held>(),
            alloc,
        }
    }

    /// Fills an empty handle.
    pub(crate) fn put(&mut self, held: Loose<Held, Global>)
        requires { self.old.held ≡ None }
        ensures { self.new.held ≡ Some held.value }
    {
        let Loose { at, alloc: _alloc } = held;
        self.at = at.cast::<u8>();
    }
}
