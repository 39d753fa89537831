//! Netlists and edits by their texts. What tests own, as an edit or a netlist, they let go by `drop` and at one place, since at each other end of a
//! function the proof spells out how each part of it is let go.
use mp_netlist::{Edit, Netlist};
use mp_text::{Line, read_line, read_netlist};
use std::alloc::Global;
use std::hash::RandomState;
use std::io;
use std::random::RandomSource;
use std::test::Fail;

/// Random numbers that are 0.
struct Zeros;

impl RandomSource for Zeros {
    fn fill_bytes(&self, buf: &mut [u8]) -> io::Result<()> {
        buf.fill(0);
        Ok(())
    }
}

/// Keys that are the same in each run. They are for tests, which choose all names themselves: a program takes its keys from the runtime.
pub fn fixed_keys() -> Result<RandomState, Fail> {
    Ok(RandomState::new(&Zeros)?)
}

/// The netlist of these statements that runs up to a horizon.
pub fn netlist(alloc: Global, horizon: u32, statements: &str) -> Result<Netlist, Fail> {
    let text = format!(in alloc; "horizon {horizon}\n{statements}")?;
    Ok(read_netlist(alloc, fixed_keys()?, text.as_bytes())?)
}

/// The edit that a line of a script states, if it states one and there is memory.
pub fn edit(alloc: Global, line: &str) -> Option<Edit> {
    match read_line(alloc, line.as_bytes()) {
        Ok(Line::Change(edit)) => Some(edit),
        _ => None,
    }
}
