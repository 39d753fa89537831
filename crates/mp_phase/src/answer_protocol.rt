//! One question at a time goes to a worker, and one answer to it comes back: the rule of its answer channel, and what each step shows.

ghost use Rattle.std.specs.Prelude.{◌≡◌, []};
ghost use Rattle.crossbeam_channel.specs.Claims.{view, IsSeatAt};
ghost use Rattle.crossbeam_channel.specs.Ends.{sends_on};
ghost use Rattle.mp_phase.specs.declared.side.Side.TheVariants.{Idle, Asks, Owes, Spent};
ghost use Rattle.mp_phase.specs.AnswerProtocols.{Kept, Taken};

use crate::side::Side;
use crate::work::Work;
use crossbeam_channel::protocol::{Join, Lesson, Outcome, Protocol, Split};
use crossbeam_channel::{Pass, RuledReceiver, RuledSender};
use std::alloc::AllocError;
use std::marker::{Brand, PhantomData};

/// What a worker answers.
pub type Answer<D> = Result<Vec<D>, AllocError>;

pub struct AnswerProtocol<T> {
    tasks: PhantomData<T>,
}

impl<T: Work> Protocol<Answer<T::Done>, Side<T>> for AnswerProtocol<T> {
    ghost holds = { Kept T.gives };

    ghost first = { Idle };
}

/// Names the question.
pub trait Asked<T> {
    ghost use Rattle.std.specs.Prelude.{List};

    ghost asked: { List T };
}

impl<T> Asked<T> for Brand {
    ghost asked = { [] };
}

pub struct Halves<J> {
    marker: PhantomData<J>,
}

impl<T, J: Asked<T>> Split<Side<T>> for Halves<J> {
    ghost left = { λ v. Asks J.asked };

    ghost right = { λ v. Owes J.asked };
}

/// An asker takes back what nobody does.
pub struct TakeBack;

impl<T> Join<Side<T>> for TakeBack {
    ghost both = { λ v w. Idle };

    ghost spent = { Spent };
}

pub struct Replies;

impl<D, T> Outcome<Answer<D>, Side<T>> for Replies {
    ghost then = { λ v x w. w ≡ Spent };
}

impl<D, T> Lesson<Answer<D>, Side<T>> for Replies {
    ghost fact = { λ v items. Unit {0} };
}

pub struct Takes<T> {
    tasks: PhantomData<T>,
}

impl<T: Work> Outcome<Answer<T::Done>, Side<T>> for Takes<T> {
    ghost then = { Taken T.gives };
}

impl<T: Work> Lesson<Answer<T::Done>, Side<T>> for Takes<T> {
    ghost fact = { λ v items. Unit {0} };
}

pub type Replier<T> = RuledSender<Answer<<T as Work>::Done>, Side<T>, AnswerProtocol<T>>;

pub type Answers<T> = RuledReceiver<Answer<<T as Work>::Done>, Side<T>, AnswerProtocol<T>>;

pub type Token<T> = Pass<Answer<<T as Work>::Done>, Side<T>>;

/// Cuts the token of one who may answer from that of one who asks.
fn ask_as<T: Work, J: Asked<T>>(to: &Replier<T>, token: &mut Token<T>, tasks: &[T]) -> Token<T>
    requires seat { IsSeatAt (sends_on to.now) token.old }
    requires idle { view token.old ≡ Idle }
    requires asked { tasks.now ≡ J.asked }
    ensures seat { IsSeatAt (sends_on to.now) token.new × IsSeatAt (sends_on to.now) result }
    ensures asks { view token.new ≡ Asks J.asked }
    ensures owes { view result ≡ Owes J.asked }
{
    to.another::<Halves<J>>(token)
}

/// Cuts a token with which these tasks may be answered.
pub fn ask<T: Work>(to: &Replier<T>, token: &mut Token<T>, tasks: &[T]) -> Token<T>
    requires seat { IsSeatAt (sends_on to.now) token.old }
    requires idle { view token.old ≡ Idle }
    ensures seat { IsSeatAt (sends_on to.now) token.new × IsSeatAt (sends_on to.now) result }
    ensures asks { view token.new ≡ Asks tasks.now }
    ensures owes { view result ≡ Owes tasks.now }
{
    ask_as::<T, Brand>(to, token, tasks)
}

/// Takes the question back.
pub fn take_back<T: Work>(to: &Replier<T>, token: &mut Token<T>, other: Token<T>, tasks: &[T])
    requires seat { IsSeatAt (sends_on to.now) token.old × IsSeatAt (sends_on to.now) other }
    requires asks { view token.old ≡ Asks tasks.now }
    requires owes { view other ≡ Owes tasks.now }
    ensures seat { IsSeatAt (sends_on to.now) token.new }
    ensures idle { view token.new ≡ Idle }
{
    to.absorb::<TakeBack>(token, other)
}
