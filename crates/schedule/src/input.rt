//! The whole input, before any of it is used.
ghost use Rattle.std.specs.Prelude.{◌≡◌, ◌++◌, ℕ, List, false, IfOk, IfErr, IfSome};
ghost use Rattle.std.specs.Io.KnownBytes.{Consumes, IsAtEnd};
ghost use Rattle.schedule.specs.Written.{IsUnread};

use std::alloc::Allocator;
use std::io::{ErrorKind, Read};
use texts::error::ScheduleError;

// Appends some of what is left, and answers false where nothing was.
fn read_piece<A: Allocator, R: Read>(
    reader: &mut R,
    input: &mut Vec<u8, A>,
) -> Result<bool, ScheduleError>
    ensures bytes { IfOk result
        (λ more. (bytes : List ℕ) × (input.new.items ≡ input.old.items ++ bytes)
        × Consumes (R.remaining reader.old) (R.remaining reader.new) bytes
        × (more ≡ false → IsAtEnd (R.remaining reader.new))) }
    ensures failed { IfErr result IsUnread }
{
    let mut piece = [0u8; 4096];
    match reader.read(&mut piece) {
        Ok(count) => {
            if input.extend_from_slice(&piece[..count]).is_err() {
                return Err(ScheduleError::NoMemory);
            }
            Ok(count > 0)
        }
        Err(e) => {
            if e.kind() == ErrorKind::Interrupted {
                Ok(true)
            } else {
                Err(ScheduleError::ReadFailed)
            }
        }
    }
}

/// All that the reader has left. A read that was interrupted is tried again; any other failure is `ReadFailed`, and
/// refused memory `NoMemory`.
pub fn whole_input<A: Allocator, R: Read>(
    alloc: A,
    reader: &mut R,
) -> Result<Vec<u8, A>, ScheduleError>
    ensures bytes { IfOk result
        (λ input. IfSome (R.remaining reader.old) (λ known. known ≡ input.items)) }
    ensures failed { IfErr result IsUnread }
{
    let mut input = Vec::new(alloc);
    for _ in 0..u64::MAX {
        match read_piece(reader, &mut input) {
            Ok(true) => {}
            Ok(false) => return Ok(input),
            Err(e) => return Err(e),
        }
    }
    Err(ScheduleError::ReadFailed)
}
