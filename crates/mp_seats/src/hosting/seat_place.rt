//! The seats of a desk by name, and who has taken them.
ghost use Rattle.std.specs.Prelude.{◌≡◌, map, IfOk};
ghost use Rattle.std.specs.List.{range_with_len};
ghost use Rattle.mp_seats.specs.hosting.Places.{named, numbered_seats};

use std::alloc::{AllocError, Global};
use std::marker::Model;
use std::sync::atomic::{AtomicBool, Ordering};

/// The name of a seat. The seats of each kind are numbered from 1.
#[derive(Clone, Copy)]
pub enum SeatName {
    Designer(u32),
    Viewer(u32),
}

/// What a seat is for.
#[derive(Clone, Copy)]
pub(crate) enum SeatKind {
    Designer,
    Viewer,
}

/// A seat, and whether somebody has taken it. A contract sees its name.
#[derive(Drop)]
pub struct SeatPlace {
    name: SeatName,
    taken: AtomicBool,
}

impl Model for SeatPlace {
    ghost use Rattle.mp_seats.specs.declared.hosting.seat_place.SeatName.{SeatName};

    ghost Value = { SeatName };

    ghost view = { λ place. place.name };
}

impl SeatPlace {
    /// The seat's name.
    pub fn name(&self) -> SeatName
        ensures { result ≡ self.now }
    {
        self.name
    }

    /// Whether somebody has taken the seat.
    pub fn is_taken(&self) -> bool {
        self.taken.load(Ordering::SeqCst)
    }

    /// Sets whether somebody has taken the seat.
    pub fn set_taken(&self, taken: bool) {
        self.taken.store(taken, Ordering::SeqCst);
    }
}

/// All seats of a desk, and whether it ends. A contract sees their names.
#[derive(Drop)]
pub struct Places {
    designers: Vec<SeatPlace>,
    viewers: Vec<SeatPlace>,
    ended: AtomicBool,
}

impl Model for Places {
    ghost use Rattle.mp_seats.specs.hosting.Places.{SeatNames};

    ghost Value = { SeatNames };

    ghost view = { λ places. record { designers = places.designers.items; viewers = places.viewers.items } };
}

impl Places {
    /// This many free seats for designers and for viewers. The error comes if memory runs out.
    pub fn new(alloc: Global, designers: u32, viewers: u32) -> Result<Places, AllocError>
        ensures { IfOk result (λ places. places ≡ numbered_seats designers viewers) }
    {
        Ok(Places {
            designers: free_places(alloc, SeatKind::Designer, designers)?,
            viewers: free_places(alloc, SeatKind::Viewer, viewers)?,
            ended: AtomicBool::new(false),
        })
    }

    /// The seats of designers.
    pub fn designers(&self) -> &[SeatPlace]
        ensures { result.now ≡ self.now.designers }
    {
        self.designers.as_slice()
    }

    /// The seats of viewers.
    pub fn viewers(&self) -> &[SeatPlace]
        ensures { result.now ≡ self.now.viewers }
    {
        self.viewers.as_slice()
    }

    /// Whether nobody can take a seat any more.
    pub fn have_ended(&self) -> bool {
        self.ended.load(Ordering::SeqCst)
    }

    /// From now on nobody can take a seat.
    pub fn end(&self) {
        self.ended.store(true, Ordering::SeqCst);
    }
}

/// This number of free seats of a kind, numbered from 1.
fn free_places(alloc: Global, kind: SeatKind, count: u32) -> Result<Vec<SeatPlace>, AllocError>
    ensures { IfOk result (λ places. places.items ≡ map (named kind) (range_with_len 1 count)) }
{
    let mut places = Vec::with_capacity(alloc, count as usize)?;
    for place in 0..count {
        places.push(free_place(kind, place + 1))?;
    }
    Ok(places)
}

/// A free seat of a kind and number.
fn free_place(kind: SeatKind, number: u32) -> SeatPlace
    ensures { result ≡ named kind number }
{
    SeatPlace {
        name: named(kind, number),
        taken: AtomicBool::new(false),
    }
}

fn named(kind: SeatKind, number: u32) -> SeatName
    ensures { result ≡ named kind number }
{
    match kind {
        SeatKind::Designer => SeatName::Designer(number),
        SeatKind::Viewer => SeatName::Viewer(number),
    }
}
