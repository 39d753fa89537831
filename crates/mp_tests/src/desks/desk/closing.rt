//! A desk that opens on a session with an edit, and is closed without all designers and with them.
ghost use Rattle.std.specs.Prelude.{◌≡◌, ◌+◌, length};

use super::{are_shut, edited, number_read, submits};
use mp_desk::{
    CloseCause, CloseRefused, Designer, Desk, DeskName, DeskParts, DeskSize, KeptSession, Staffed,
    Unkept, Viewer,
};
use mp_phase::OpenGate;
use mp_session::Session;
use std::alloc::Global;
use std::marker::Brand;
use std::process::Abort;
use std::sync::Wait;
use std::test::Fail;
use std::thread::Threads;

#[test]
fn desk_refusals(rt: HostRuntime) -> Result<(), Fail> {
    let size = DeskSize::new(2, 1)?;
    let session = edited(&rt, rt.alloc())?;
    let parts = DeskParts::new(&rt, rt.alloc(), KeptSession::unkept(session), size)
        .ok()
        .ok_or("no parts")?;
    close_without_all::<Brand, _>(&rt, rt.alloc(), parts)
}

fn close_without_all<L: DeskName, R: Threads + Wait + Abort + Sync + Copy>(
    rt: R,
    alloc: Global,
    parts: DeskParts<Session<OpenGate>, Unkept, R>,
) -> Result<(), Fail>
    requires history { parts.book ≡ L.history }
    requires ledger { parts.ledger ≡ L.name }
    requires shares { parts.designers + 1 ≡ L.parts }
    requires opening { length parts.session.story.edits ≡ L.opening }
{
    let mut staffed = Desk::<Session<OpenGate>, Unkept, L, R>::open(parts)
        .ok()
        .ok_or("no desk")?;
    let taken = takes_one_more(&rt, alloc, &mut staffed);
    let closes = closes_with_all(&rt, staffed);
    assert!(rt; taken && closes);
    Ok(())
}

/// Whether the desk opened on one edit, and takes another, which the viewer reads.
fn takes_one_more<L: DeskName, R: Threads + Wait + Sync + Drop>(
    rt: &R,
    alloc: Global,
    staffed: &mut Staffed<Session<OpenGate>, Unkept, L, R>,
) -> bool {
    let Staffed {
        desk,
        designers,
        viewers,
    } = staffed;
    let ([_, me], [viewer]) = (designers.as_mut_slice(), viewers.as_mut_slice()) else {
        return false;
    };
    desk.opening() == 1
        && submits(rt, alloc, desk, me, "remove wire b")
        && number_read(viewer) == Some(2)
}

/// Whether a desk can't be closed while a designer is missing, and can be with all of them.
fn closes_with_all<L: DeskName, R: Wait + Drop>(
    rt: &R,
    staffed: Staffed<Session<OpenGate>, Unkept, L, R>,
) -> bool {
    let Staffed {
        desk,
        designers,
        mut viewers,
    } = staffed;
    let closes = closes_after_refusal(rt, desk, designers, viewers.as_mut_slice());
    drop(viewers);
    closes
}

fn closes_after_refusal<L: DeskName, R: Wait + Drop>(
    rt: &R,
    desk: Desk<Session<OpenGate>, Unkept, L, R>,
    designers: Vec<Designer<L>>,
    viewers: &mut [Viewer<L>],
) -> bool {
    let mut others = designers;
    let missing = others.pop();
    match handed_back(rt, desk, others, viewers) {
        Some((desk, others)) => closes(rt, desk, with(others, missing), viewers),
        None => {
            drop(missing);
            false
        }
    }
}

/// The desk and the designers, if it isn't closed with these.
fn handed_back<L: DeskName, R: Wait + Drop>(
    rt: &R,
    desk: Desk<Session<OpenGate>, Unkept, L, R>,
    designers: Vec<Designer<L>>,
    viewers: &mut [Viewer<L>],
) -> Option<(Desk<Session<OpenGate>, Unkept, L, R>, Vec<Designer<L>>)> {
    let CloseRefused {
        cause: CloseCause::MissingPass,
        desk,
        designers,
    } = desk.close(rt, designers, viewers).err()?;
    Some((desk, designers))
}

/// The items with one more, if there is one and memory for it.
fn with<T: Drop>(items: Vec<T>, item: Option<T>) -> Option<Vec<T>> {
    let mut items = items;
    items.push(item?).ok()?;
    Some(items)
}

/// Whether there are designers, with whom the desk is closed, and no viewer reads any more.
fn closes<L: DeskName, R: Wait + Drop>(
    rt: &R,
    desk: Desk<Session<OpenGate>, Unkept, L, R>,
    designers: Option<Vec<Designer<L>>>,
    viewers: &mut [Viewer<L>],
) -> bool {
    match designers {
        Some(designers) => {
            let closed = desk.close(rt, designers, viewers).err().is_none();
            closed && are_shut(viewers)
        }
        None => {
            drop(desk);
            false
        }
    }
}
