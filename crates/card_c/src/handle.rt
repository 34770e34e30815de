// What C holds.
ghost use Rattle.std.specs.Prelude.{◌≡◌, is_some};

use crate::bare::Bare;
use crate::held::Held;
use crate::loose::Loose;
use eeprom::Heap;

/// What C holds: nothing, as long as its octets are 00.
#[repr(C)]
pub struct Handle {
    bare: Bare,
    is_full: bool,
    ghost tied: { is_full ≡ is_some bare.held },
}

impl Handle {
    ghost use Rattle.std.specs.Prelude.{◌≡◌, None, Some, is_some, option_map};

    pub(crate) fn is_full(&self) -> bool
        ensures { result ≡ is_some self.now.bare.held }
    {
        self.is_full
    }

    /// What is held, taken out.
    pub(crate) fn take(&mut self, alloc: Heap) -> Option<Box<Held, Heap>>
        ensures was { option_map (λ b. b.value) result ≡ self.old.bare.held }
        ensures none { self.new.bare.held ≡ None }
    {
        let empty = Handle {
            bare: Bare::none(),
            is_full: false,
        };
        let Handle { bare, is_full } = std::mem::replace(self, empty);
        if is_full {
            Some(bare.into_loose(alloc).into_box())
        } else {
            bare.forget();
            None
        }
    }

    /// Puts something into an empty handle.
    pub(crate) fn put(&mut self, held: Box<Held, Heap>)
        requires { self.old.bare.held ≡ None }
        ensures { self.new.bare.held ≡ Some held.value }
    {
        let full = Handle {
            bare: Bare::of(Loose::of(held)),
            is_full: true,
        };
        let Handle { bare, is_full: _ } = std::mem::replace(self, full);
        bare.forget();
    }
}
