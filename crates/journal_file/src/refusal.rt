//! Why a file is no journal.

use thiserror::Error;

/// The first broken rule of a journal file, from the left.
#[derive(Clone, Copy, Debug, PartialEq, Eq, Error)]
pub enum FileRefusal {
    /// A field of the entry with index `place`, or of the header, is cut off.
    #[error("too short at entry {place}")]
    Short { place: u64 },
    /// The first four bytes aren't those of a journal file.
    #[error("not a journal")]
    Magic,
    /// The version is neither 1 nor 2.
    #[error("version {got}")]
    Version { got: u32 },
    /// The harts, the mode, the limit of the header or the product of harts and limit isn't one of a run.
    #[error("bad head")]
    BadHead,
    /// In the entry with index `place`, `byte` stands for nothing: a case that isn't there, an ask that
    /// disagrees with its quota, the hart of a Turn behind a Turn of that hart, or 0 for a Turn without steps.
    #[error("bad byte {byte} at entry {place}")]
    BadEntry { place: u64, byte: u8 },
    /// Bytes follow the last entry.
    #[error("{bytes} bytes too many")]
    Extra { bytes: u64 },
}

/// What is wrong with a field.
#[derive(Clone, Copy, Debug, PartialEq, Eq)]
pub enum Fault {
    /// It is cut off.
    Short,
    /// The byte stands for nothing there.
    Bad(u8),
}
