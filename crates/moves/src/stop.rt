// Why a line is not answered by its command's own answer.

use crate::misread::Misread;
use journal::fault::JournalFault;
use keys::fault::KeyFault;
use rules::fault::ArchiveFault;
use std::alloc::{AllocError, AllocFailed};

#[derive(Drop)]
pub enum Stop {
    Misread(Misread),
    Refused(ArchiveFault),
    NoMemory,
}

impl From<Misread> for Stop {
    fn from(misread: Misread) -> Stop {
        Stop::Misread(misread)
    }
}

impl From<KeyFault> for Stop {
    fn from(fault: KeyFault) -> Stop {
        Stop::Refused(fault.into())
    }
}

impl From<JournalFault> for Stop {
    fn from(fault: JournalFault) -> Stop {
        Stop::Refused(fault.into())
    }
}

impl From<ArchiveFault> for Stop {
    fn from(fault: ArchiveFault) -> Stop {
        Stop::Refused(fault)
    }
}

impl From<AllocError> for Stop {
    fn from(_: AllocError) -> Stop {
        Stop::NoMemory
    }
}

impl<T: Drop> From<AllocFailed<T>> for Stop {
    fn from(_: AllocFailed<T>) -> Stop {
        Stop::NoMemory
    }
}
