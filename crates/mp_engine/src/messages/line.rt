//! The two ends of a line from a part to another.
ghost use Rattle.std.specs.Prelude.{◌≡◌, IfOk};
ghost use Rattle.crossbeam_channel.specs.Claims.{view, IsSeatAt};
ghost use Rattle.crossbeam_channel.specs.Ends.{sends_on, receives_on};
ghost use Rattle.mp_engine.specs.declared.messages.line_rule.Known.TheVariants.{Sends, Takes};
ghost use Rattle.mp_engine.specs.messages.LineRules.{heading_of};

use crate::messages::given_up::GivenUp;
use crate::messages::line_rule::{Cut, Known, LineRule, Sending, Taking};
use crate::messages::message::{Heading, Message, Subject};
use crossbeam_channel::{Pass, RecvError, RuledReceiver, RuledSender, TryRecvError, bounded_with};
use std::alloc::{AllocError, Global};
use std::sync::Wait;
use std::thread;

/// A line to another part.
#[derive(Drop)]
pub(crate) struct LineTo<J: Subject> {
    pub to: u32,
    pub messages: RuledSender<Message<J>, Known, LineRule<J>>,
    pub pass: Pass<Message<J>, Known>,
    pub ghost seat: { IsSeatAt (sends_on messages) pass },
    pub ghost sends: { view pass ≡ Sends (heading_of (view pass)) },
}

/// A line from another part.
#[derive(Drop)]
pub struct LineFrom<J: Subject> {
    pub by: u32,
    pub(crate) messages: RuledReceiver<Message<J>, Known, LineRule<J>>,
    pub(crate) pass: Pass<Message<J>, Known>,
    pub ghost seat: { IsSeatAt (receives_on messages) pass },
    pub ghost takes: { view pass ≡ Takes (heading_of (view pass)) },
}

/// Both ends of a line, which has room for one message.
pub(crate) fn open_line<J: Subject>(
    alloc: Global,
    by: u32,
    to: u32,
) -> Result<(LineTo<J>, LineFrom<J>), AllocError>
    ensures { IfOk result (λ ends. (ends.0.to ≡ to) × (ends.1.by ≡ by)) }
{
    let (sender, receiver, mut pass) = bounded_with::<Message<J>, Known, LineRule<J>, Global>(
        alloc, 1,
    )?;
    let taking = sender.another::<Cut>(&mut pass);
    let end = LineTo {
        to,
        messages: sender,
        pass,
    };
    let other = LineFrom {
        by,
        messages: receiver,
        pass: taking,
    };
    Ok((end, other))
}

impl<J: Subject> LineTo<J> {
    ghost use Rattle.std.specs.Prelude.{◌≡◌, Some, OnOk};
    ghost use Rattle.crossbeam_channel.specs.Ends.{sends_on};
    ghost use Rattle.mp_engine.specs.messages.Lines.{sent_on};

    /// Sends a message, once there is room.
    pub(crate) fn send<R: Wait>(&mut self, rt: &R, message: Message<J>) -> Result<(), GivenUp>
        ensures sent { OnOk result (sent_on self.new ≡ Some message.heading) }
        ensures line { (self.new.to ≡ self.old.to) × (sends_on self.new.messages ≡ sends_on self.old.messages) }
    {
        match self
            .messages
            .send_as::<Sending, R>(rt, &mut self.pass, message)
        {
            Ok(()) => Ok(()),
            Err(_) => Err(GivenUp::LineClosed),
        }
    }
}

impl<J: Subject> LineFrom<J> {
    ghost use Rattle.std.specs.Prelude.{◌≡◌, IfOk};

    /// The message with this heading. Others are thrown away.
    pub(crate) fn message_for<R: Wait>(
        &mut self,
        rt: &R,
        looks: u32,
        heading: Heading,
    ) -> Result<Message<J>, GivenUp>
        ensures heading { IfOk result (λ message. message.heading ≡ heading) }
        ensures line { self.new.by ≡ self.old.by }
    {
        for _ in rt.forever() {
            let message = self.next(rt, looks)?;
            if message.heading == heading {
                return Ok(message);
            }
        }
        unreachable!()
    }

    /// The next message. It is looked for so often before the thread sleeps. If none comes any more, the other part gave up.
    fn next<R: Wait>(&mut self, rt: &R, looks: u32) -> Result<Message<J>, GivenUp>
        ensures { self.new.by ≡ self.old.by }
    {
        for _ in 0..looks {
            match self.messages.try_recv_as::<Taking, R>(rt, &mut self.pass) {
                Ok(message) => return Ok(message),
                Err(TryRecvError::Disconnected) => return Err(GivenUp::LineClosed),
                Err(TryRecvError::Empty) => thread::yield_now(),
            }
        }
        match self.messages.recv_as::<Taking, R>(rt, &mut self.pass) {
            Ok(message) => Ok(message),
            Err(RecvError) => Err(GivenUp::LineClosed),
        }
    }
}
