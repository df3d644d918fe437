//! The count of stored links.
ghost use Rattle.std.specs.Prelude.{◌≡◌, ℕ, ◌+◌};
ghost use base.Fml.{ftrue};

use std::marker::{Model, PhantomData, Send, Sync};
use std::mem::size_of;

/// The number of stored links. It exists only in contracts: it has no bytes, and no greatest value.
pub(crate) struct LinkWrites {
    mark: PhantomData<*mut u8>,
    pub(crate) ghost count: { ℕ },
}

const _: () = prove!(size_of::<LinkWrites>() == 0);

impl Model for LinkWrites {
    ghost also_owns = { λ _. ftrue };

    ghost also_shares = { λ _ _ _. ftrue };
}

// It has no bytes, so no thread can see what another does to it. Only the pointer in its mark keeps the
// compiler from seeing this by itself.
unsafe impl Send for LinkWrites {}

// For the same reason.
unsafe impl Sync for LinkWrites {}

impl Drop for LinkWrites {
    fn drop(self) {
        let LinkWrites { mark: _ } = self;
    }
}

impl LinkWrites {
    pub(crate) fn new() -> LinkWrites
        ensures { result.count ≡ 0 }
    {
        LinkWrites { mark: PhantomData }
    }

    /// Counts one stored link.
    pub(crate) fn raise(&mut self)
        ensures { self.new.count ≡ self.old.count + 1 }
    {}
}
