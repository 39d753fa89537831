//! One list of tasks, shared out over the mailboxes to workers and the calling thread.

ghost use Rattle.std.specs.Prelude.{◌≡◌, ◌++◌, List, IfOk};
ghost use Rattle.mp_phase.specs.Allowed.{AreAllowed};
ghost use Rattle.mp_phase.specs.Lines.{AreFree, all_asked};
ghost use Rattle.mp_phase.specs.AnswerProtocols.{IsAnswerTo};

use crate::answer_protocol::Answer;
use crate::gate::Gate;
use crate::leave::Leave;
use crate::mailbox::Mailbox;
use crate::share::run_here;
use crate::work::Work;
use std::alloc::{AllocError, Global};
use std::sync::Wait;

/// Asks each mailbox for its share of the tasks, the last mailbox for the last tasks, and gives the first share back. The shares differ by
/// one task at most.
fn ask_all<'a, T: Work, R: Wait, G: Gate>(
    rt: &R,
    gate: &'a G,
    mailboxes: &mut [Mailbox<'a, T, G>],
    tasks: Vec<T>,
) -> Result<Vec<T>, AllocError>
    requires free { AreFree mailboxes.old }
    requires allowed { AreAllowed T.enters (G.may gate.now) tasks.items }
    ensures asked { IfOk result (λ own. own.items ++ all_asked mailboxes.new ≡ tasks.items) }
    ensures allowed { IfOk result (λ own. AreAllowed T.enters (G.may gate.now) own.items) }
{
    let mut rest = tasks;
    let mut place = mailboxes.len();
    while place > 0 {
        let share = rest.len() / (place + 1);
        place -= 1;
        let part = rest.split_off(rest.len() - share)?;
        mailboxes[place].ask(rt, Leave { gate, tasks: part });
    }
    Ok(rest)
}

/// The results of some tasks and of those after them.
fn join<T: Work>(all: Answer<T::Done>, more: Answer<T::Done>) -> Answer<T::Done>
    ensures { (xs ys : List T) → IsAnswerTo T.gives xs all → IsAnswerTo T.gives ys more → IsAnswerTo T.gives (xs ++ ys) result }
{
    let mut all = all?;
    let mut more = more?;
    all.append(&mut more)?;
    Ok(all)
}

/// The results of the calling thread's share and of all mailboxes. After the call each mailbox has answered.
fn answer_all<T: Work, R: Wait, G: Gate>(
    rt: &R,
    alloc: Global,
    mailboxes: &mut [Mailbox<'_, T, G>],
    own: Answer<T::Done>,
) -> Answer<T::Done>
    ensures done { (tasks : List T) → IsAnswerTo T.gives tasks own → IsAnswerTo T.gives (tasks ++ all_asked mailboxes.old) result }
    ensures free { AreFree mailboxes.new }
{
    let mut all = own;
    for place in 0..mailboxes.len() {
        let more = mailboxes[place].answer(rt, alloc, all.is_err());
        all = join::<T>(all, more);
    }
    all
}

/// Does the tasks, with a share for each mailbox and for the calling thread. If memory is refused, no further share is begun, and the call waits for
/// those that are out.
pub fn phase<'a, T: Work, R: Wait, G: Gate>(
    rt: &R,
    alloc: Global,
    gate: &'a G,
    mailboxes: &mut [Mailbox<'a, T, G>],
    tasks: Vec<T>,
) -> Answer<T::Done>
    requires free { AreFree mailboxes.old }
    requires allowed { AreAllowed T.enters (G.may gate.now) tasks.items }
    ensures done { IsAnswerTo T.gives tasks.items result }
    ensures free { AreFree mailboxes.new }
{
    match ask_all(rt, gate, mailboxes, tasks) {
        Ok(own) => {
            let own = run_here(rt, alloc, gate, own);
            answer_all(rt, alloc, mailboxes, own)
        }
        Err(refused) => {
            let _ = answer_all(rt, alloc, mailboxes, Err(refused));
            Err(AllocError)
        }
    }
}
