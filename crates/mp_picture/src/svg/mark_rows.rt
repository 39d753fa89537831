//! The rows of what is found in a picture.
ghost use Rattle.std.specs.Prelude.{◌≡◌, ◌<◌, ◌^◌, ◌++◌, All, IsTrue, IfOk, OnOk, length};
ghost use Rattle.std.specs.List.{flat_map};
ghost use Rattle.mp_modules.specs.Findings.{by_number};
ghost use Rattle.mp_modules.specs.declared.finding_code.FindingCode.{FindingCode as AnyCode};
ghost use Rattle.mp_model.specs.declared.finding.Place.{Place as AnyPlace};
ghost use Rattle.mp_model.specs.declared.finding.Finding.{Finding as Found};
ghost use Rattle.mp_picture.specs.Found.{is_within};
ghost use Rattle.mp_picture.specs.svg.MarkNumbers.{number_of};
ghost use Rattle.mp_picture.specs.svg.MarkRows.{last_of, row_if, mark_rows, HasFirstRows};

use crate::Columns;
use crate::svg::mark_numbers::MarkNumbers;
use mp_model::{Finding, Place};
use mp_modules::FindingCode;
use std::alloc::{AllocError, Global};
use std::marker::Model;

/// A row of a picture: a code that is found at a place, and the column of its last finding there.
#[derive(Clone, Copy)]
pub(crate) struct MarkRow {
    pub(crate) place: Place,
    pub(crate) code: FindingCode,
    pub(crate) last: u32,
}

/// For each place a row for each code that is found there, by number.
pub(crate) fn mark_rows(
    alloc: Global,
    columns: Columns,
    places: &[Place],
    found: &[Finding],
) -> Result<Vec<MarkRow>, AllocError>
    requires { All (λ (f : Found). IsTrue (is_within columns f)) found.now }
    ensures { IfOk result (λ rows. rows.items ≡ mark_rows columns places.now found.now) }
{
    let lasts = lasts_of(alloc, columns, found)?;
    let mut rows = Vec::new(alloc);
    for &place in places {
        push_rows(&mut rows, &lasts, place)?;
    }
    Ok(rows)
}

/// The column of the last finding of each code at each place.
fn lasts_of(alloc: Global, columns: Columns, found: &[Finding]) -> Result<MarkNumbers, AllocError>
    requires { All (λ (f : Found). IsTrue (is_within columns f)) found.now }
    ensures { IfOk result (λ lasts. (place : AnyPlace) (code : AnyCode) → number_of lasts place code ≡ last_of columns place code found.now) }
{
    let mut lasts = MarkNumbers::new(alloc);
    for &finding in found {
        let column = columns.column_of(finding.time);
        lasts.set(finding.place, finding.code, column)?;
    }
    Ok(lasts)
}

/// Puts a row behind the others for each code that has a last column at a place.
fn push_rows(rows: &mut Vec<MarkRow>, lasts: &MarkNumbers, place: Place) -> Result<(), AllocError>
    ensures { OnOk result (rows.new.items ≡ rows.old.items ++ flat_map (λ code. row_if place code (number_of lasts.now place code)) by_number) }
{
    for code in FindingCode::by_number() {
        push_row(rows, place, code, lasts.get(place, code))?;
    }
    Ok(())
}

/// Puts a row behind the others for a code that has this last column at a place, if it has one.
fn push_row(
    rows: &mut Vec<MarkRow>,
    place: Place,
    code: FindingCode,
    last: Option<u32>,
) -> Result<(), AllocError>
    ensures { OnOk result (rows.new.items ≡ rows.old.items ++ row_if place code last) }
{
    if let Some(last) = last {
        rows.push(MarkRow { place, code, last })?;
    }
    Ok(())
}

/// Rows for what is found, and the number of the first row of each code at each place. Contracts see the list of the rows.
#[derive(Drop)]
pub(crate) struct MarkRows {
    rows: Vec<MarkRow>,
    firsts: MarkNumbers,
}

impl Model for MarkRows {
    ghost use Rattle.std.specs.Prelude.{List};
    ghost use Rattle.mp_picture.specs.declared.svg.mark_rows.MarkRow.{MarkRow as Row};
    ghost use Rattle.mp_picture.specs.svg.MarkRows.{HasFirstRows};

    ghost Value = { List Row };

    ghost view = { λ marks. marks.rows.items };

    ghost invariant = { λ marks. HasFirstRows marks.rows.items marks.firsts };
}

impl MarkRows {
    ghost use Rattle.std.specs.Prelude.{◌≡◌, ◌<◌, ◌≤◌, ◌^◌, IfOk, length};
    ghost use Rattle.mp_picture.specs.svg.FoundGroups.{row_among};

    /// Rows, whose numbers are looked up from now on.
    pub(crate) fn new(alloc: Global, rows: Vec<MarkRow>) -> Result<MarkRows, AllocError>
        requires { length rows.items < 2 ^ 32 }
        ensures { IfOk result (λ marks. marks ≡ rows.items) }
    {
        let firsts = first_rows(alloc, rows.as_slice())?;
        Ok(MarkRows { rows, firsts })
    }

    /// The rows, in order.
    pub(crate) fn as_slice(&self) -> &[MarkRow]
        ensures { result.now ≡ self.now }
    {
        self.rows.as_slice()
    }

    /// How many rows stand before that of a finding; as many as there are if it has none.
    pub(crate) fn row_of(&self, finding: Finding) -> u32
        requires { length self.now < 2 ^ 32 }
        ensures value { result ≡ row_among self.now finding }
        ensures within { result ≤ length self.now }
    {
        match self.firsts.get(finding.place, finding.code) {
            Some(row) => row,
            None => self.as_slice().len() as u32,
        }
    }
}

/// The number of the first row of each code at each place.
fn first_rows(alloc: Global, rows: &[MarkRow]) -> Result<MarkNumbers, AllocError>
    requires { length rows.now < 2 ^ 32 }
    ensures { IfOk result (λ firsts. HasFirstRows rows.now firsts) }
{
    let mut firsts = MarkNumbers::new(alloc);
    // Of two rows of a code at a place the first one is noted later.
    let mut left = rows.len();
    while left > 0 {
        left -= 1;
        let row = rows[left];
        firsts.set(row.place, row.code, left as u32)?;
    }
    Ok(firsts)
}
