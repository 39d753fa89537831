//! The findings at modules and bundles, explained code by code.
use crate::explain::entry::Entry;
use crate::explain::topic::Topic;
use mp_modules::FindingCode;

pub(crate) const MERGE_COLLISION: Entry = Entry {
    subject: Topic::Finding(FindingCode::MergeCollision),
    text: "
  meaning:
    both inputs of a XOR change at the same time
  example, read by `mpwb report`:
    horizon 20
    wire a 1 0
    wire b 1 0
    module m XOR : a b > -
    stim a 5=1
    stim b 5=1
  answer:
    5 module m merge-collision
  remedy:
    The two events cancel each other, and `y` has none. Let them come one at a
    time: delay one of them, or let an ARBITER choose between their senders.
",
};

pub(crate) const WITHDRAWN: Entry = Entry {
    subject: Topic::Finding(FindingCode::Withdrawn),
    text: "
  meaning:
    an input of a C takes its event back: it changes, and its level, behind
      its bubble, differed from the output before
  example, read by `mpwb report`:
    horizon 20
    wire a 1 0
    wire b 1 0
    module m C 0 0 0 : a b > -
    stim a 3=1 6=0
  answer:
    6 module m withdrawn
  remedy:
    The next event of that wire has to wait until the C has answered the last
    one, so its driver has to depend on the C's output. `mpwb waits TIME`
    shows what the C waits for.
",
};

pub(crate) const SELECT_UNSTABLE: Entry = Entry {
    subject: Topic::Finding(FindingCode::SelectUnstable),
    text: "
  meaning:
    `a` and the diamond of a SELECT change at the same time
  example, read by `mpwb report`:
    horizon 20
    wire a 1 0
    wire b 1 0
    module m SELECT : a b > - -
    stim a 5=1
    stim b 5=1
  answer:
    5 module m select-unstable
  remedy:
    The diamond has to be stable before the event comes. Delay `a`, as the
    request of a bundle is delayed to come after its data.
",
};

pub(crate) const CALL_OVERLAP: Entry = Entry {
    subject: Topic::Finding(FindingCode::CallOverlap),
    text: "
  meaning:
    an event of `r1` or `r2` of a CALL is ignored
  example, read by `mpwb report`:
    horizon 20
    wire a 1 0
    wire b 1 0
    wire d 1 0
    module m CALL : a b d > - - -
    stim a 3=1
    stim b 5=1
  answer:
    5 module m call-overlap
  remedy:
    A request came while a client was being served, and is lost. Let the
    clients take turns, or put an ARBITER before the CALL, and let each client
    wait for its done event before it calls again.
",
};

pub(crate) const DONE_WITHOUT_CALL: Entry = Entry {
    subject: Topic::Finding(FindingCode::DoneWithoutCall),
    text: "
  meaning:
    an event of `d` of a CALL is ignored
  example, read by `mpwb report`:
    horizon 20
    wire a 1 0
    wire b 1 0
    wire d 1 0
    module m CALL : a b d > - - -
    stim d 3=1
  answer:
    3 module m done-without-call
  remedy:
    No client was being served. The procedure has to make one event at `d` for
    each event of `r`, after that event.
",
};

pub(crate) const REPEAT_REQUEST: Entry = Entry {
    subject: Topic::Finding(FindingCode::RepeatRequest),
    text: "
  meaning:
    a request event of an ARBITER is ignored
  example, read by `mpwb report`:
    horizon 20
    wire a 1 0
    wire b 1 0
    wire d 1 0
    wire e 1 0
    module m ARBITER : a b d e > - -
    stim a 3=1 5=0
  answer:
    5 module m repeat-request
  remedy:
    The client is waiting for a grant, or has it already. Let it request again
    only after it has been granted and has made its done event.
",
};

pub(crate) const DONE_WITHOUT_GRANT: Entry = Entry {
    subject: Topic::Finding(FindingCode::DoneWithoutGrant),
    text: "
  meaning:
    a done event of an ARBITER is ignored
  example, read by `mpwb report`:
    horizon 20
    wire a 1 0
    wire b 1 0
    wire d 1 0
    wire e 1 0
    module m ARBITER : a b d e > - -
    stim d 3=1
  answer:
    3 module m done-without-grant
  remedy:
    Only the client that has the grant may make a done event, and only one for
    each grant.
",
};

pub(crate) const CAPTURE_WHILE_HELD: Entry = Entry {
    subject: Topic::Finding(FindingCode::CaptureWhileHeld),
    text: "
  meaning:
    `c` of a REG changes, and the REG was held before
  example, read by `mpwb report`:
    horizon 20
    wire d 8 0
    wire c 1 0
    wire p 1 0
    module m REG 0 : d c p > - - -
    stim c 3=1 6=0
  answer:
    6 module m capture-while-held
  remedy:
    Captures and passes have to alternate. Let the next capture wait for the
    pass, which `pd` acknowledges.
",
};

pub(crate) const PASS_WHILE_OPEN: Entry = Entry {
    subject: Topic::Finding(FindingCode::PassWhileOpen),
    text: "
  meaning:
    `p` of a REG changes, and the REG was open before
  example, read by `mpwb report`:
    horizon 20
    wire d 8 0
    wire c 1 0
    wire p 1 0
    module m REG 0 : d c p > - - -
    stim p 3=1
  answer:
    3 module m pass-while-open
  remedy:
    Captures and passes have to alternate. Let the pass wait for a capture,
    which `cd` acknowledges.
",
};

pub(crate) const DATA_AT_CAPTURE: Entry = Entry {
    subject: Topic::Finding(FindingCode::DataAtCapture),
    text: "
  meaning:
    `d` of a REG changes when it closes: it was open before and is held now
  example, read by `mpwb report`:
    horizon 20
    wire d 8 0
    wire c 1 0
    wire p 1 0
    module m REG 0 : d c p > - - -
    stim c 5=1
    stim d 5=7
  answer:
    5 module m data-at-capture
  remedy:
    The data have to be there before the capture: delay the event at `c`, or
    let the data come earlier.
",
};

pub(crate) const DATA_WHILE_BUSY: Entry = Entry {
    subject: Topic::Finding(FindingCode::DataWhileBusy),
    text: "
  meaning:
    the data of a bundle change, and the bundle was busy before
  example, read by `mpwb report`:
    horizon 20
    wire r 1 0
    wire k 1 0
    wire d 8 0
    bundle p r k d 0
    stim r 3=1
    stim d 6=7
  answer:
    6 bundle p data-while-busy
  remedy:
    The receiver may still be reading the data. The sender may change them
    only after the acknowledge. `mpwb waits TIME` shows since when the bundle
    has waited for it.
",
};

pub(crate) const SETUP: Entry = Entry {
    subject: Topic::Finding(FindingCode::Setup),
    text: "
  meaning:
    the data of a bundle change at a request event, or earlier than one by at
      most the setup of the bundle
  example, read by `mpwb report`:
    horizon 20
    wire r 1 0
    wire k 1 0
    wire d 8 0
    bundle p r k d 4
    stim d 8=7
    stim r 10=1
  answer:
    8 bundle p setup
  remedy:
    Let the request come later, with a longer delay in its path, or let the
    data come earlier. `mpwb measure` shows the least time from data to a
    request.
",
};

pub(crate) const REQUEST_WHILE_BUSY: Entry = Entry {
    subject: Topic::Finding(FindingCode::RequestWhileBusy),
    text: "
  meaning:
    a request event of a bundle that was busy before
  example, read by `mpwb report`:
    horizon 20
    wire r 1 0
    wire k 1 0
    wire d 8 0
    bundle p r k d 0
    stim r 3=1 6=0
  answer:
    6 bundle p request-while-busy
  remedy:
    The sender has to wait for the acknowledge of one request before it makes
    the next one.
",
};

pub(crate) const ACK_WHILE_IDLE: Entry = Entry {
    subject: Topic::Finding(FindingCode::AckWhileIdle),
    text: "
  meaning:
    an acknowledge event of a bundle that wasn't busy before
  example, read by `mpwb report`:
    horizon 20
    wire r 1 0
    wire k 1 0
    wire d 8 0
    bundle p r k d 0
    stim k 3=1
  answer:
    3 bundle p ack-while-idle
  remedy:
    The receiver has to acknowledge each request once, after the request.
",
};
