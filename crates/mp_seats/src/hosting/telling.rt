//! The lines about a desk's seats.
ghost use Rattle.std.specs.Prelude.{◌++◌, ℕ, Bool, List};
ghost use Rattle.std.specs.Fmt.{decimal};
ghost use Rattle.mp_streams.specs.Outgoing.{Writes as Sends};
ghost use Rattle.mp_streams.specs.WriteErrors.{Writes};
ghost use Rattle.mp_seats.specs.hosting.Places.{state_text, place_text, TellsOf};

use crate::hosting::seat_place::{Places, SeatName, SeatPlace};
use mp_streams::{Failed, Out, Sink, Text, WriteError};

/// Writes a line for each seat, with whether it is taken.
pub(crate) fn put_places<T: Sink>(out: &mut Out<T>, places: &Places) -> Result<(), WriteError>
    ensures { (text : List ℕ) × TellsOf (places.now.designers ++ places.now.viewers) text × Writes result out.old out.new text }
{
    put_each(out, places.designers())?;
    Ok(put_each(out, places.viewers())?)
}

/// Writes a line for each of these seats.
fn put_each<T: Sink>(out: &mut Out<T>, places: &[SeatPlace]) -> Result<(), Failed>
    ensures { (text : List ℕ) × TellsOf places.now text × Sends result out.old out.new text }
{
    for index in 0..places.len() {
        put_place(out, &places[index])?;
    }
    Ok(())
}

/// Writes the line of a seat.
fn put_place<T: Sink>(out: &mut Out<T>, place: &SeatPlace) -> Result<(), Failed>
    ensures { (taken : Bool) × Sends result out.old out.new (place_text place.now taken) }
{
    let taken = place.is_taken();
    match place.name() {
        SeatName::Designer(number) => put_line(out, "designer-", number, taken),
        SeatName::Viewer(number) => put_line(out, "viewer-", number, taken),
    }
}

/// Writes the line of a seat of this kind and number.
fn put_line<T: Sink>(out: &mut Out<T>, kind: &str, number: u32, taken: bool) -> Result<(), Failed>
    ensures { Sends result out.old out.new (kind.now ++ (decimal number ++ state_text taken)) }
{
    let state = if taken { " taken\n" } else { " free\n" };
    (kind, number, state).put_to(out)
}
