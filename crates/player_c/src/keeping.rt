// A pointer keeps a handle and gives it back.
ghost use Rattle.std.specs.Prelude.{◌≡◌, Some, None, IsSome, is_some, not};
ghost use Rattle.player_c.specs.Closing.{IsHandleOrNull, nothing_there};

use crate::handle::SpcwavePlayer;
use crate::parts::Parts;
use crate::pointer::SpcwavePointer;
use std::alloc::Global;
use std::ptr::null_mut;

impl SpcwavePointer {
    /// No handle, at any address.
    fn at_nothing(at: *mut u8) -> SpcwavePointer
        ensures { result ≡ record { at = at; handle = None } }
    {
        SpcwavePointer { at }
    }

    /// A null pointer.
    pub fn nothing() -> SpcwavePointer
        ensures { result ≡ nothing_there }
    {
        let at = null_mut();
        SpcwavePointer::at_nothing(at)
    }

    /// Whether no handle stands.
    pub fn is_nothing(&mut self) -> bool
        requires { IsHandleOrNull self.old }
        ensures answer { result ≡ not (is_some self.old.handle) }
        ensures same { self.new ≡ self.old }
    {
        self.at.is_null()
    }

    /// Keeps what a box owns.
    fn put_parts(&mut self, handle: Parts<SpcwavePlayer, Global>)
        requires { self.old.handle ≡ None }
        ensures { self.new.handle ≡ Some handle.value }
    {
        let Parts { ptr, alloc: _ } = handle;
        self.at = ptr as *mut u8;
    }

    /// Gives back what the box of the handle owned.
    fn take_parts(&mut self, alloc: Global) -> Parts<SpcwavePlayer, Global>
        requires { IsSome self.old.handle }
        ensures handle { Some result.value ≡ self.old.handle }
        ensures none { self.new.handle ≡ None }
    {
        let ptr = self.at as *mut SpcwavePlayer;
        Parts { ptr, alloc }
    }

    /// Keeps a handle.
    pub fn put(&mut self, handle: Box<SpcwavePlayer>)
        requires { self.old.handle ≡ None }
        ensures { self.new.handle ≡ Some handle.value }
    {
        self.put_parts(Parts::of(handle));
    }

    /// Takes the handle back.
    pub fn take(&mut self, alloc: Global) -> Box<SpcwavePlayer>
        requires { IsSome self.old.handle }
        ensures handle { Some result.value ≡ self.old.handle }
        ensures none { self.new.handle ≡ None }
    {
        self.take_parts(alloc).into_box()
    }
}
