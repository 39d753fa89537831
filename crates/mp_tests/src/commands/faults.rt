//! How faults of a run are told.
use mp_commands::{RunFault, exit_status, fault_line};
use mp_netlist::EditError;
use mp_text::{LineError, TextCode, TextError};
use std::test::Fail;

static FAULTS: [(RunFault, u8, &str); 9] = [
    (
        RunFault::Text(TextError {
            line: 4,
            code: TextCode::Line(LineError::WordCount),
        }),
        1,
        "mpwb: line 4: 3 WordCount",
    ),
    (
        RunFault::Text(TextError {
            line: 3,
            code: TextCode::Refused(EditError::NameTaken),
        }),
        1,
        "mpwb: line 3: 7 Refused: 1 NameTaken",
    ),
    (RunFault::BadCount, 1, "mpwb: bad count"),
    (RunFault::ReadFailed, 3, "mpwb: read failed"),
    (RunFault::WriteFailed, 3, "mpwb: write failed"),
    (RunFault::OutOfMemory, 4, "mpwb: out of memory"),
    (RunFault::NoPlace, 4, "mpwb: no place"),
    (RunFault::NoSuchWire(1), 1, "mpwb: no such wire: b c"),
    (
        RunFault::NoSuchPlace(0),
        1,
        "mpwb: no such module or bundle: a",
    ),
];

#[test]
fn faults(rt: HostRuntime) -> Result<(), Fail> {
    for (fault, status, line) in &FAULTS {
        assert_eq!(rt; exit_status(fault), *status);
        let told = fault_line(rt.alloc(), fault, &["a", "b c"])?;
        assert_eq!(rt; told.as_slice(), line.as_bytes());
    }
    Ok(())
}
