//! Those who sit at a desk, as guests and back.
ghost use Rattle.std.specs.Prelude.{◌≡◌, map, vec_len, IfOk};
ghost use Rattle.mp_seats.specs.hosting.Guests.{sitter, looker};

use crate::ReplyWriter;
use crate::hosting::designer_guest::DesignerGuest;
use crate::hosting::door::Door;
use crate::hosting::rises::Rises;
use crate::hosting::seat_server::{SeatServer, posts};
use crate::hosting::viewer_guest::ViewerGuest;
use mp_desk::{Desk, DeskName, EditKeeper, Viewer};
use mp_meeting::DesignerTally;
use mp_version::EditSession;
use std::alloc::{AllocError, Global};
use std::sync::Wait;

/// Those who sit at a desk, and the viewer of whoever runs it.
#[derive(Drop)]
pub(crate) struct People<'a, S: EditSession, K: EditKeeper, L: DeskName, R: Wait + Drop> {
    pub desk: &'a Desk<S, K, L, R>,
    pub sittings: Vec<DesignerTally<L>>,
    pub viewers: Vec<Viewer<L>>,
    pub own: Viewer<L>,
}

/// The designers as guests.
fn designer_guests<'a, S: EditSession, K: EditKeeper, L: DeskName, R: Wait + Drop>(
    alloc: Global,
    desk: &'a Desk<S, K, L, R>,
    sittings: Vec<DesignerTally<L>>,
) -> Result<Vec<DesignerGuest<'a, S, K, L, R>>, AllocError>
    ensures { IfOk result (λ v. map (λ g. g.sitting) v.items ≡ sittings.items) }
{
    let mut guests = Vec::with_capacity(alloc, sittings.len())?;
    for sitting in sittings {
        guests.push_reserved(DesignerGuest { desk, sitting });
    }
    Ok(guests)
}

/// The viewers as guests.
fn viewer_guests<L: DeskName>(
    alloc: Global,
    viewers: Vec<Viewer<L>>,
) -> Result<Vec<ViewerGuest<L>>, AllocError>
    ensures { IfOk result (λ v. map (λ g. g.viewer) v.items ≡ viewers.items) }
{
    let mut guests = Vec::with_capacity(alloc, viewers.len())?;
    for viewer in viewers {
        guests.push_reserved(ViewerGuest { viewer });
    }
    Ok(guests)
}

/// A post for each designer, with the door in its place.
pub(crate) fn designer_posts<
    'a,
    S: EditSession,
    K: EditKeeper,
    L: DeskName,
    R: Wait + Drop,
    B: ReplyWriter + Copy,
    D: Door,
>(
    alloc: Global,
    scribe: B,
    desk: &'a Desk<S, K, L, R>,
    sittings: Vec<DesignerTally<L>>,
    doors: Vec<D>,
) -> Result<Vec<SeatServer<B, DesignerGuest<'a, S, K, L, R>, D>>, AllocError>
    requires { vec_len sittings ≡ vec_len doors }
    ensures seats { IfOk result (λ v. map (λ p. p.seat) v.items ≡ map sitter sittings.items) }
    ensures doors { IfOk result (λ v. map (λ p. p.door) v.items ≡ doors.items) }
{
    let guests = designer_guests(alloc, desk, sittings)?;
    let made = posts(alloc, scribe, guests, doors)?;
    Ok(made)
}

/// A post for each viewer, with the door in its place.
pub(crate) fn viewer_posts<L: DeskName, B: ReplyWriter + Copy, D: Door>(
    alloc: Global,
    scribe: B,
    viewers: Vec<Viewer<L>>,
    doors: Vec<D>,
) -> Result<Vec<SeatServer<B, ViewerGuest<L>, D>>, AllocError>
    requires { vec_len viewers ≡ vec_len doors }
    ensures seats { IfOk result (λ v. map (λ p. p.seat) v.items ≡ map looker viewers.items) }
    ensures doors { IfOk result (λ v. map (λ p. p.door) v.items ≡ doors.items) }
{
    let guests = viewer_guests(alloc, viewers)?;
    let made = posts(alloc, scribe, guests, doors)?;
    Ok(made)
}

/// The people at these posts.
pub(crate) fn people_at<B: ReplyWriter, G: Rises, D: Door>(
    alloc: Global,
    posts: Vec<SeatServer<B, G, D>>,
) -> Result<Vec<G::Person>, AllocError>
    ensures { IfOk result (λ v. map G.seated_as v.items ≡ map (λ p. p.seat) posts.items) }
{
    let mut people = Vec::with_capacity(alloc, posts.len())?;
    for post in posts {
        people.push_reserved(post.into_guest().rise());
    }
    Ok(people)
}
