//! The codes of findings.
ghost use Rattle.std.specs.Prelude.{◌≡◌, ◌≤◌};
ghost use Rattle.mp_modules.specs.Findings.{by_number, code_number, code_word};

use crate::finding_set::CODES;

/// What can be found at a module or a bundle, at a time from 1 on. "Before" means one unit before.
#[derive(Clone, Copy, PartialEq, Eq)]
pub enum FindingCode {
    /// Both inputs of a XOR change at the same time.
    MergeCollision,
    /// An input of a C takes its event back: it changes, and its level, behind its bubble, differed from the output before.
    Withdrawn,
    /// The first input and the diamond of a SELECT change at the same time.
    SelectUnstable,
    /// A request event of a CALL is ignored.
    CallOverlap,
    /// A done event of a CALL is ignored.
    DoneWithoutCall,
    /// A request event of an ARBITER is ignored.
    RepeatRequest,
    /// A done event of an ARBITER is ignored.
    DoneWithoutGrant,
    /// The capture input of a REG changes, and the REG was held before.
    CaptureWhileHeld,
    /// The pass input of a REG changes, and the REG was open before.
    PassWhileOpen,
    /// The data input of a REG changes when it closes: it was open before and is held now.
    DataAtCapture,
    /// The data of a bundle change, and the bundle was busy before.
    DataWhileBusy,
    /// The data of a bundle change at a request event, or earlier than one by at most the setup of the bundle.
    Setup,
    /// A request event of a bundle that was busy before.
    RequestWhileBusy,
    /// An acknowledge event of a bundle that wasn't busy before.
    AckWhileIdle,
}

impl FindingCode {
    /// All codes by number.
    pub fn by_number() -> [FindingCode; CODES]
        ensures { result ≡ by_number }
    {
        [
            FindingCode::MergeCollision,
            FindingCode::Withdrawn,
            FindingCode::SelectUnstable,
            FindingCode::CallOverlap,
            FindingCode::DoneWithoutCall,
            FindingCode::RepeatRequest,
            FindingCode::DoneWithoutGrant,
            FindingCode::CaptureWhileHeld,
            FindingCode::PassWhileOpen,
            FindingCode::DataAtCapture,
            FindingCode::DataWhileBusy,
            FindingCode::Setup,
            FindingCode::RequestWhileBusy,
            FindingCode::AckWhileIdle,
        ]
    }

    /// Its number, 1 to 14.
    pub fn number(self) -> u32
        ensures value { result ≡ code_number self }
        ensures low { 1 ≤ result }
        ensures high { result ≤ 14 }
    {
        match self {
            FindingCode::MergeCollision => 1,
            FindingCode::Withdrawn => 2,
            FindingCode::SelectUnstable => 3,
            FindingCode::CallOverlap => 4,
            FindingCode::DoneWithoutCall => 5,
            FindingCode::RepeatRequest => 6,
            FindingCode::DoneWithoutGrant => 7,
            FindingCode::CaptureWhileHeld => 8,
            FindingCode::PassWhileOpen => 9,
            FindingCode::DataAtCapture => 10,
            FindingCode::DataWhileBusy => 11,
            FindingCode::Setup => 12,
            FindingCode::RequestWhileBusy => 13,
            FindingCode::AckWhileIdle => 14,
        }
    }

    /// Its word in reports.
    pub fn word(self) -> &'static str
        ensures { result.now ≡ code_word self }
    {
        match self {
            FindingCode::MergeCollision => "merge-collision",
            FindingCode::Withdrawn => "withdrawn",
            FindingCode::SelectUnstable => "select-unstable",
            FindingCode::CallOverlap => "call-overlap",
            FindingCode::DoneWithoutCall => "done-without-call",
            FindingCode::RepeatRequest => "repeat-request",
            FindingCode::DoneWithoutGrant => "done-without-grant",
            FindingCode::CaptureWhileHeld => "capture-while-held",
            FindingCode::PassWhileOpen => "pass-while-open",
            FindingCode::DataAtCapture => "data-at-capture",
            FindingCode::DataWhileBusy => "data-while-busy",
            FindingCode::Setup => "setup",
            FindingCode::RequestWhileBusy => "request-while-busy",
            FindingCode::AckWhileIdle => "ack-while-idle",
        }
    }
}
