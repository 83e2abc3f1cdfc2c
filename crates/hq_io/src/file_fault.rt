//! What a failed opening of a file is answered as.
use hq_value::DoorFault;
use std::io::{Error, ErrorKind};

/// Want of memory is told apart from every other failure.
pub fn door_fault(error: &Error) -> DoorFault {
    match error.kind() {
        ErrorKind::OutOfMemory => DoorFault::NoMemory,
        _ => DoorFault::Failed,
    }
}
