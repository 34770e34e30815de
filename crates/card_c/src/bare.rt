// What C keeps of what it holds: an address.
ghost use Rattle.std.specs.Prelude.{◌≡◌, Option, None, Some, is_some, true};
ghost use Rattle.std.specs.Coded.{coded_option};
ghost use Rattle.card_c.specs.contracts.held.Held.{the_row};
ghost use Rattle.card_c.specs.Owning.{held_at};
ghost use Rattle.card_c.specs.declared.held.Held.{Held};

use crate::held::Held;
use crate::loose::Loose;
use eeprom::Heap;
use std::marker::Model;

/// The address of what is held, or null.
#[repr(C)]
pub struct Bare {
    at: *mut u8,
    pub ghost held: { Option Held } by { coded_option the_row.coded },
}

impl Model for Bare {
    ghost also_owns = { λ h. held_at the_row h.at h.held };
}

impl Bare {
    pub(crate) fn none() -> Bare
        ensures { result.held ≡ None }
    {
        Bare {
            at: std::ptr::null_mut(),
        }
    }

    pub(crate) fn of(loose: Loose<Held, Heap>) -> Bare
        ensures { result.held ≡ Some loose.value }
    {
        let Loose { at, alloc: _ } = loose;
        Bare { at: at as *mut u8 }
    }

    pub(crate) fn into_loose(self, alloc: Heap) -> Loose<Held, Heap>
        requires { is_some self.held ≡ true }
        ensures { Some result.value ≡ self.held }
    {
        let Bare { at } = self;
        Loose {
            at: at as *mut Held,
            alloc,
        }
    }

    pub(crate) fn forget(self)
        requires { self.held ≡ None }
    {
        let Bare { at: _ } = self;
    }
}
