//! The rule of a line from one partition to another, and what each step on it shows.
ghost use Rattle.std.specs.Prelude.{◌≡◌, Some, None};
ghost use Rattle.mp_engine.specs.declared.messages.line_rule.Known.TheVariants.{Whole, Sends, Takes};
ghost use Rattle.mp_engine.specs.messages.LineRules.{Keeps};

use crate::messages::message::{Heading, Message, Subject};
use crossbeam_channel::protocol::{Lesson, Outcome, Protocol, Split};
use std::marker::PhantomData;

/// The knowledge of a pass of a line: the heading that was sent last, or the one that was taken last. It exists only in proofs.
pub(crate) enum Known {
    Whole,
    Sends(Option<Heading>),
    Takes(Option<Heading>),
}

/// The rule that the message sent last is the last one in the line, or was taken last.
pub(crate) struct LineRule<J: Subject> {
    of: PhantomData<J>,
}

impl<J: Subject> Protocol<Message<J>, Known> for LineRule<J> {
    ghost holds = { Keeps };

    ghost first = { Whole };
}

/// One pass sends from then on, and the other takes.
pub(crate) struct Cut;

impl Split<Known> for Cut {
    ghost left = { λ v. Sends None };

    ghost right = { λ v. Takes None };
}

/// A send: its pass knows the message's heading as the one that was sent last.
pub(crate) struct Sending;

impl<J: Subject> Outcome<Message<J>, Known> for Sending {
    ghost then = { λ v message w. w ≡ Sends (Some message.heading) };
}

impl<J: Subject> Lesson<Message<J>, Known> for Sending {
    ghost fact = { λ v messages. Unit {0} };
}

/// A receive: its pass knows the message's heading as the one that was taken last.
pub(crate) struct Taking;

impl<J: Subject> Outcome<Message<J>, Known> for Taking {
    ghost then = { λ v message w. w ≡ Takes (Some message.heading) };
}

impl<J: Subject> Lesson<Message<J>, Known> for Taking {
    ghost fact = { λ v messages. Unit {0} };
}
