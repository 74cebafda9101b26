//! How a handle is let go of, and why it may cross threads.
ghost use Rattle.std.specs.Prelude.{◌≡◌, None, IsSome};

use crate::handle::Handle;
use crate::held::Held;
use std::alloc::Global;

/// Empties the handle. A role that it had is given back, by one atomic step, and its memory is freed. The structure is freed
/// with the last of its handles.
#[unsafe(no_mangle)]
pub extern "C" fn paglunet_close(alloc: Global, handle: &mut Handle)
    requires { IsSome handle.old.held }
    ensures { handle.new.held ≡ None }
{
    drop(handle.take(alloc).into_box());
}

fn is_send<T: Send>() {}

/// What lies behind a handle may cross threads: this call is refused where `Send` is not proved.
pub fn handles_cross_threads() {
    is_send::<Box<Held>>();
}
