//! The arguments of a program.
use crate::error::ScheduleError;
use crate::status;
use std::alloc::Alloc;
use std::env::{self, Env};
use std::io::{self, ErrorKind, Write};
use std::process::ExitCode;

/// Whether the program is given this argument, the only one that it knows. None where it is given another.
pub fn is_given<R: Env + Alloc>(rt: &R, name: &str) -> io::Result<Option<bool>> {
    let mut given = false;
    for argument in env::args(rt)?.skip(1) {
        if argument.as_str() != name {
            return Ok(None);
        }
        given = true;
    }
    Ok(Some(given))
}

/// How a program ends whose arguments were not read: without memory as `status` tells it, and by any other error.
pub fn unread<E: Write>(error: io::Error, errors: &mut E) -> io::Result<ExitCode> {
    if error.kind() == ErrorKind::OutOfMemory {
        let exit = status(&Err(ScheduleError::NoMemory), errors);
        return Ok(ExitCode::from(exit));
    }
    Err(error)
}
