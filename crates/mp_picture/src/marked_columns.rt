//! The columns of a picture in which something is found.
use crate::columns::Columns;
use crate::place_key::{PlaceKey, place_key};
use mp_model::{Finding, Place};
use std::alloc::{AllocError, Global};
use std::collections::BTreeSet;

/// For each place the columns in which something is found there.
#[derive(Drop)]
pub(crate) struct MarkedColumns {
    marked: BTreeSet<(PlaceKey, u32)>,
}

impl MarkedColumns {
    ghost use Rattle.std.specs.Prelude.{◌≡◌, All, IsTrue, IfOk};
    ghost use Rattle.mp_model.specs.declared.finding.Finding.{Finding as Found};
    ghost use Rattle.mp_picture.specs.Found.{is_within};
    ghost use Rattle.mp_picture.specs.MarkedColumns.{AreMarked, has_mark};

    /// The columns of these findings.
    pub(crate) fn of(
        alloc: Global,
        columns: Columns,
        found: &[Finding],
    ) -> Result<MarkedColumns, AllocError>
        requires { All (λ (f : Found). IsTrue (is_within columns f)) found.now }
        ensures { IfOk result (λ all. AreMarked columns found.now all) }
    {
        let mut marked = BTreeSet::new(alloc);
        for &finding in found {
            let column = columns.column_of(finding.time);
            marked.insert((place_key(finding.place), column))?;
        }
        Ok(MarkedColumns { marked })
    }

    /// Whether something is found at a place in a column.
    pub(crate) fn has(&self, place: Place, column: u32) -> bool
        ensures { result ≡ has_mark self.now place column }
    {
        self.marked.contains(&(place_key(place), column))
    }
}
