//! The reasons why an edit is refused.
ghost use Rattle.std.specs.Prelude.{◌≡◌, codes, option_map};
ghost use Rattle.mp_records.specs.declared.edit_error.EditError.TheVariants.{OutOfMemory};
ghost use Rattle.mp_records.specs.EditErrors.{number_of, name_of};

use std::alloc::{AllocError, AllocFailed};
use thiserror::Error;

/// The reason why an edit is refused. A refused edit changes nothing.
#[derive(Clone, Copy, Debug, PartialEq, Eq, Error)]
pub enum EditError {
    #[error("the name is taken")]
    NameTaken,
    #[error("not a name")]
    BadName,
    #[error("no such wire")]
    NoSuchWire,
    #[error("no such module")]
    NoSuchModule,
    #[error("no such bundle")]
    NoSuchBundle,
    #[error("the width isn't 1 to 64")]
    BadWidth,
    #[error("the level doesn't fit the width")]
    BadLevel,
    #[error("an output's delay isn't 1 to 65535, or an input's is above 65535")]
    BadDelay,
    #[error("no such port")]
    BadPort,
    #[error("more or fewer inputs or outputs than the kind has")]
    WrongPorts,
    #[error("a parameter or setup out of its range, or more or fewer parameters than the kind has")]
    BadParam,
    #[error("a wire with another width than its port")]
    WidthMismatch,
    #[error("the wire already has a driver")]
    AlreadyDriven,
    #[error("the wire is still used")]
    StillUsed,
    #[error("a time that is out of range or doesn't rise, or a level that doesn't fit the width")]
    BadStimulus,
    #[error("the wire has no stimulus")]
    NoStimulus,
    #[error("the table is full")]
    TableFull,
    #[error("the history is full")]
    HistoryFull,
    #[error("out of memory")]
    OutOfMemory,
    #[error("not 1 to 256 edits in the batch")]
    BadBatch,
    /// A batch is refused for one of its edits: the place of that edit, counted from 1, and the number of its own refusal.
    #[error("edit {place} of the batch is refused with number {number}")]
    InBatch { place: u32, number: u32 },
}

impl From<AllocError> for EditError {
    ghost from_gives = { λ _ error. error ≡ OutOfMemory };

    fn from(_error: AllocError) -> EditError {
        EditError::OutOfMemory
    }
}

impl<T: Drop> From<AllocFailed<T>> for EditError {
    ghost from_gives = { λ _ error. error ≡ OutOfMemory };

    fn from(_error: AllocFailed<T>) -> EditError {
        EditError::OutOfMemory
    }
}

impl EditError {
    /// The number of the refusal in texts, from 1 to 21.
    pub fn number(self) -> u32
        ensures { result ≡ number_of self }
    {
        match self {
            EditError::NameTaken => 1,
            EditError::BadName => 2,
            EditError::NoSuchWire => 3,
            EditError::NoSuchModule => 4,
            EditError::NoSuchBundle => 5,
            EditError::BadWidth => 6,
            EditError::BadLevel => 7,
            EditError::BadDelay => 8,
            EditError::BadPort => 9,
            EditError::WrongPorts => 10,
            EditError::BadParam => 11,
            EditError::WidthMismatch => 12,
            EditError::AlreadyDriven => 13,
            EditError::StillUsed => 14,
            EditError::BadStimulus => 15,
            EditError::NoStimulus => 16,
            EditError::TableFull => 17,
            EditError::HistoryFull => 18,
            EditError::OutOfMemory => 19,
            EditError::BadBatch => 20,
            EditError::InBatch { .. } => 21,
        }
    }

    /// The name of the refusal with this number; `None` if no refusal has it.
    pub fn name_of(number: u32) -> Option<&'static str>
        ensures { option_map (λ name. name.now) result ≡ name_of number }
    {
        Some(match number {
            1 => "NameTaken",
            2 => "BadName",
            3 => "NoSuchWire",
            4 => "NoSuchModule",
            5 => "NoSuchBundle",
            6 => "BadWidth",
            7 => "BadLevel",
            8 => "BadDelay",
            9 => "BadPort",
            10 => "WrongPorts",
            11 => "BadParam",
            12 => "WidthMismatch",
            13 => "AlreadyDriven",
            14 => "StillUsed",
            15 => "BadStimulus",
            16 => "NoStimulus",
            17 => "TableFull",
            18 => "HistoryFull",
            19 => "OutOfMemory",
            20 => "BadBatch",
            21 => "InBatch",
            _ => return None,
        })
    }
}
