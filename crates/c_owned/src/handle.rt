//! A box as C keeps it.

ghost use Rattle.std.specs.Prelude.{◌≡◌, None, Some, Option, MatchOption};
ghost use Rattle.c_owned.specs.Held.{held};
ghost use Rattle.c_owned.specs.declared.engine.Engine.{Engine as AnyEngine};

use crate::engine::Engine;
use crate::loose::Loose;
use c_lent::layout::CHandle;
use std::alloc::Global;
use std::marker::Model;
use std::mem;

/// An engine, or none. C sees a pointer and a mark, and creates a handle with a mark of false.
#[repr(C)]
pub struct Handle {
    at: *mut u8,
    is_full: bool,
    alloc: Global,
    pub ghost engine: { Option AnyEngine },
}

const _: () = prove!(mem::size_of::<Handle>() == mem::size_of::<CHandle>());

impl Model for Handle {
    ghost also_owns = { λ h. held h.is_full h.at h.alloc h.engine };
}

impl Handle {
    fn empty(alloc: Global) -> Handle
        ensures { result.engine ≡ None }
    {
        Handle {
            at: std::ptr::null_mut(),
            is_full: false,
            alloc,
        }
    }

    fn full(loose: Loose<Engine, Global>) -> Handle
        ensures { result.engine ≡ Some loose.value }
    {
        let Loose { at, alloc } = loose;
        Handle {
            at: at as *mut u8,
            is_full: true,
            alloc,
        }
    }

    fn open(self) -> Option<Loose<Engine, Global>>
        ensures { MatchOption result (self.engine ≡ None)
            (λ loose. self.engine ≡ Some loose.value) }
    {
        let Handle { at, is_full, alloc } = self;
        if is_full {
            Some(Loose {
                at: at as *mut Engine,
                alloc,
            })
        } else {
            None
        }
    }

    /// Puts an engine into the handle, and drops the one that was there.
    pub(crate) fn put(&mut self, engine: Box<Engine>)
        ensures { self.new.engine ≡ Some engine.value }
    {
        let old = mem::replace(self, Handle::full(Loose::of(engine)));
        if let Some(loose) = old.open() {
            drop(loose.into_box());
        }
    }

    /// Takes the engine out of the handle.
    pub(crate) fn take(&mut self, alloc: Global) -> Option<Box<Engine>>
        ensures found { MatchOption result (self.old.engine ≡ None)
            (λ engine. self.old.engine ≡ Some engine.value) }
        ensures left { self.new.engine ≡ None }
    {
        let old = mem::replace(self, Handle::empty(alloc));
        match old.open() {
            Some(loose) => Some(loose.into_box()),
            None => None,
        }
    }
}
