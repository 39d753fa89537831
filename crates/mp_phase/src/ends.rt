//! The two channels of a worker.

ghost use Rattle.std.specs.Prelude.{◌≡◌, List, IfOk, IfErr, IfSome, IfNone, OnOk};
ghost use Rattle.crossbeam_channel.specs.Claims.{view, IsSeatAt};
ghost use Rattle.crossbeam_channel.specs.Ends.{sends_on, receives_on};
ghost use Rattle.mp_phase.specs.declared.side.Side.TheVariants.{Idle, Asks};
ghost use Rattle.mp_phase.specs.AnswerProtocols.{IsAnswerTo, Taken};

use crate::answer_protocol::{Answer, Answers, Replier, Takes, Token, ask, take_back};
use crate::gate::Gate;
use crate::job::Job;
use crate::leave::Leave;
use crate::work::Work;
use crate::worker::LOOKS;
use crossbeam_channel::{Sender, TryRecvError};
use std::sync::Wait;
use std::thread;

/// The collector's ends of the two channels. It keeps a sender of answers, so that these never look closed.
#[derive(Drop)]
pub struct Ends<'a, T: Work, G: Gate> {
    pub jobs: Sender<Job<'a, T, G>>,
    pub to: Replier<T>,
    pub answers: Answers<T>,
    pub token: Token<T>,
    pub ghost seat: { IsSeatAt (sends_on to) token },
    pub ghost ends: { receives_on answers ≡ sends_on to },
}

/// Asks for the tasks. They come back if they can't be sent.
pub fn send<'a, T: Work, R: Wait, G: Gate>(
    rt: &R,
    ends: &mut Ends<'a, T, G>,
    leave: Leave<'a, T, G>,
) -> Result<(), Leave<'a, T, G>>
    requires idle { view ends.old.token ≡ Idle }
    ensures ok { OnOk result (view ends.new.token ≡ Asks leave.entry.tasks.items) }
    ensures err { IfErr result (λ back. (view ends.new.token ≡ Idle) × (back.tasks.items ≡ leave.entry.tasks.items)) }
{
    let Ok(to) = ends.to.try_clone() else {
        return Err(leave);
    };
    let token = ask(&ends.to, &mut ends.token, leave.tasks.as_slice());
    let job = Job { leave, to, token };
    match ends.jobs.send(rt, job) {
        Ok(()) => Ok(()),
        Err(refused) => {
            let Job {
                leave,
                to: _,
                token,
            } = refused.into_inner();
            take_back(&ends.to, &mut ends.token, token, leave.tasks.as_slice());
            Err(leave)
        }
    }
}

/// The answer, if it comes soon.
fn look<T: Work, R: Wait, G: Gate>(rt: &R, ends: &mut Ends<'_, T, G>) -> Option<Answer<T::Done>>
    requires asks { (o : List T) × (view ends.old.token ≡ Asks o) }
    ensures some { IfSome result (λ x. Taken T.gives (view ends.old.token) x (view ends.new.token)) }
    ensures none { IfNone result (view ends.new.token ≡ view ends.old.token) }
{
    for _ in 0..LOOKS {
        match ends.answers.try_recv_as::<Takes<T>, R>(rt, &mut ends.token) {
            Ok(answer) => return Some(answer),
            Err(TryRecvError::Disconnected) => return None,
            Err(TryRecvError::Empty) => thread::yield_now(),
        }
    }
    None
}

/// Sleeps until the answer comes.
fn wait<T: Work, R: Wait, G: Gate>(rt: &R, ends: &mut Ends<'_, T, G>) -> Answer<T::Done>
    requires asks { (o : List T) × (view ends.old.token ≡ Asks o) }
    ensures { Taken T.gives (view ends.old.token) result (view ends.new.token) }
{
    for _ in rt.forever() {
        if let Ok(answer) = ends.answers.recv_as::<Takes<T>, R>(rt, &mut ends.token) {
            return answer;
        }
    }
    unreachable!()
}

/// Waits for the answer.
pub fn receive<T: Work, R: Wait, G: Gate>(rt: &R, ends: &mut Ends<'_, T, G>) -> Answer<T::Done>
    requires asks { (o : List T) × (view ends.old.token ≡ Asks o) }
    ensures { Taken T.gives (view ends.old.token) result (view ends.new.token) }
{
    match look(rt, ends) {
        Some(answer) => answer,
        None => wait(rt, ends),
    }
}
