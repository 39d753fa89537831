//! Errors in words.
use mp_netlist::{EditError, NewError};
use mp_text::{LineError, TextCode, TextError};
use mp_wave::{WaveCause, WaveError};
use std::alloc::Global;
use std::process::Abort;
use std::test::Fail;

fn says(rt: &impl Abort, alloc: Global, error: EditError, words: &str) -> Result<(), Fail> {
    let text = format!(in alloc; "{error}")?;
    assert!(rt; text.as_str() == words);
    Ok(())
}

/// Why edits are refused, in words.
static REFUSALS: [(EditError, &str); 4] = [
    (EditError::NameTaken, "the name is taken"),
    (EditError::StillUsed, "the wire is still used"),
    (EditError::OutOfMemory, "out of memory"),
    (
        EditError::InBatch {
            place: 2,
            number: 8,
        },
        "edit 2 of the batch is refused with number 8",
    ),
];

#[test]
fn refused_edits(rt: HostRuntime) -> Result<(), Fail> {
    for (error, words) in &REFUSALS {
        says(&rt, rt.alloc(), *error, words)?;
    }
    Ok(())
}

#[test]
fn refused_netlists(rt: HostRuntime) -> Result<(), Fail> {
    let text = format!(in rt.alloc(); "{}; {}", NewError::BadHorizon, NewError::OutOfMemory)?;
    assert!(rt;
        text.as_str() == "the horizon is not 1 to the longest of its format; out of memory"
    );
    Ok(())
}

#[test]
fn refused_texts(rt: HostRuntime) -> Result<(), Fail> {
    let unread = TextError {
        line: 2,
        code: TextCode::Line(LineError::NotAscii),
    };
    let refused = TextError {
        line: 3,
        code: TextCode::Refused(EditError::StillUsed),
    };
    let text = format!(in rt.alloc(); "{unread}; {refused}")?;
    assert!(rt;
        text.as_str()
            == "line 2: a byte that is not allowed; line 3: refused: the wire is still used"
    );
    Ok(())
}

#[test]
fn refused_waves(rt: HostRuntime) -> Result<(), Fail> {
    let error = WaveError {
        place: 1,
        cause: WaveCause::Order,
    };
    let text = format!(in rt.alloc(); "{error}")?;
    assert!(rt; text.as_str() == "pair 1 is no change: it is not later than the pair before");
    Ok(())
}
