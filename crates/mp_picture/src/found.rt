//! What the report finds in a picture.
ghost use Rattle.std.specs.Prelude.{◌≡◌, ◌++◌, ◌∷◌, [], not, OnOk, IfOk, All, IsTrue, if◌then◌else◌};
ghost use Rattle.mp_model.specs.declared.finding.Finding.{Finding as Found};
ghost use Rattle.std.specs.List.{filter, list_any};
ghost use Rattle.mp_picture.specs.Found.{is_within, is_place, is_module, within, places_of, place_rows, trimmed, place_name};
ghost use Rattle.mp_picture.specs.MarkedColumns.{mark_in, marks_in, marked_row};
ghost use Rattle.mp_picture.specs.PlaceKeys.{HasPlaces};

use crate::columns::Columns;
use crate::layout::DiagramLayout;
use crate::marked_columns::MarkedColumns;
use crate::place_key::{PlaceKey, place_key};
use crate::repeated::push_padded;
use mp_model::{Finding, Place};
use mp_netlist::Netlist;
use std::alloc::{AllocError, Global};
use std::collections::BTreeSet;

/// The findings at times in the range of the columns, in their order. The error comes if memory runs out.
pub fn found_within(
    alloc: Global,
    findings: &[Finding],
    columns: Columns,
) -> Result<Vec<Finding>, AllocError>
    ensures found { IfOk result (λ found. found.items ≡ within columns findings.now) }
    ensures within { IfOk result (λ found. All (λ (f : Found). IsTrue (is_within columns f)) found.items) }
{
    let found = filtered(alloc, findings, columns)?;
    Ok(found)
}

fn filtered(
    alloc: Global,
    findings: &[Finding],
    columns: Columns,
) -> Result<Vec<Finding>, AllocError>
    ensures { IfOk result (λ found. found.items ≡ within columns findings.now) }
{
    findings
        .iter()
        .copied()
        .filter(|finding| is_within(columns, *finding))
        .collect(alloc)
}

fn is_within(columns: Columns, finding: Finding) -> bool
    ensures { result ≡ is_within columns finding }
{
    columns.from <= finding.time && finding.time < columns.to
}

/// The places of the findings, each once: the modules and then the bundles, each group in the order of its first findings. The error comes if memory
/// runs out.
pub fn rows_of(alloc: Global, found: &[Finding]) -> Result<Vec<Place>, AllocError>
    ensures { IfOk result (λ places. places.items ≡ place_rows found.now) }
{
    let places = places_of(alloc, found)?;
    let mut rows = Vec::new(alloc);
    let pushed = push_rows(&mut rows, places.as_slice());
    drop(places);
    let Ok(()) = pushed else {
        drop(rows);
        return Err(AllocError);
    };
    Ok(rows)
}

/// Appends the modules and then the bundles of some places.
fn push_rows(rows: &mut Vec<Place>, places: &[Place]) -> Result<(), AllocError>
    ensures { OnOk result (rows.new.items ≡ rows.old.items ++ (filter is_module places.now ++ filter (λ place. not (is_module place)) places.now)) }
{
    'modules: for &place in places {
        if is_module(place) {
            rows.push(place)?;
        }
    }
    'bundles: for &place in places {
        if !is_module(place) {
            rows.push(place)?;
        }
    }
    Ok(())
}

/// The places of the findings, each once, in the order of their first.
fn places_of(alloc: Global, found: &[Finding]) -> Result<Vec<Place>, AllocError>
    ensures { IfOk result (λ places. places.items ≡ places_of found.now) }
{
    let mut places = Vec::new(alloc);
    let mut seen = BTreeSet::new(alloc);
    for finding in found {
        push_new(&mut places, &mut seen, finding.place)?;
    }
    Ok(places)
}

/// Appends a place if it is none of the places so far, which have all been seen.
fn push_new(
    places: &mut Vec<Place>,
    seen: &mut BTreeSet<PlaceKey>,
    place: Place,
) -> Result<(), AllocError>
    requires { HasPlaces seen.old places.old.items }
    ensures places { OnOk result (places.new.items ≡ places.old.items ++ (if list_any (is_place place) places.old.items then [] else place ∷ [])) }
    ensures seen { OnOk result (HasPlaces seen.new places.new.items) }
{
    let is_new = seen.insert(place_key(place))?;
    if !is_new {
        return Ok(());
    }
    places.push(place)?;
    Ok(())
}

fn is_module(place: Place) -> bool
    ensures { result ≡ is_module place }
{
    match place {
        Place::Module(_) => true,
        Place::Bundle(_) => false,
    }
}

/// Appends the row of a place: its name, filled with blanks to the width of the names, `!` in each column that is marked there, and a line feed.
/// There are no blanks at its end.
pub fn push_place_row(
    row: &mut Vec<u8>,
    netlist: &Netlist,
    layout: DiagramLayout,
    place: Place,
    marked: &MarkedColumns,
) -> Result<(), AllocError>
    ensures { OnOk result (row.new.items ≡ row.old.items ++ marked_row netlist.now layout marked.now place) }
{
    push_padded(row, place_name(netlist, place).as_bytes(), layout.margin)?;
    let marks = marks_of(*row.allocator(), layout.columns, place, marked)?;
    row.extend_from_slice(trimmed(marks.as_slice()))?;
    row.push(b'\n')?;
    Ok(())
}

/// The name of the module or bundle at a place; empty if there is none.
pub fn place_name(netlist: &Netlist, place: Place) -> &str
    ensures { result.now ≡ place_name netlist.now place }
{
    match place {
        Place::Module(id) => match netlist.module(id) {
            Some(found) => found.name.as_str(),
            None => "",
        },
        Place::Bundle(id) => match netlist.bundle(id) {
            Some(found) => found.name.as_str(),
            None => "",
        },
    }
}

/// A mark for each column: `!` if it is marked at the place, and otherwise a blank.
fn marks_of(
    alloc: Global,
    columns: Columns,
    place: Place,
    marked: &MarkedColumns,
) -> Result<Vec<u8>, AllocError>
    ensures { IfOk result (λ list. list.items ≡ marks_in columns marked.now place) }
{
    let mut marks = Vec::new(alloc);
    for column in 0..columns.count() {
        marks.push(mark_in(marked, place, column))?;
    }
    Ok(marks)
}

fn mark_in(marked: &MarkedColumns, place: Place, column: u32) -> u8
    ensures { result ≡ mark_in marked.now place column }
{
    if marked.has(place, column) {
        b'!'
    } else {
        b' '
    }
}

/// Marks without the blanks at their end.
fn trimmed(marks: &[u8]) -> &[u8]
    ensures { result.now ≡ trimmed marks.now }
{
    let mut end = marks.len();
    while end > 0 && marks[end - 1] == b' ' {
        end -= 1;
    }
    &marks[..end]
}
