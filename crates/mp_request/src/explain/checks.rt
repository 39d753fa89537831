//! What `check` reports besides findings, explained word by word.
use crate::explain::check_word::CheckWord;
use crate::explain::entry::Entry;
use crate::explain::topic::Topic;

pub(crate) const LATE: Entry = Entry {
    subject: Topic::Check(CheckWord::Late),
    text: "
  meaning:
    data of a bundle change after a request, but neither because of that
      request nor because of a stimulus after it
  example, read by `mpwb check`:
    horizon 100
    wire c 1 0
    wire q 8 0
    wire d 8 0
    wire r 1 0
    wire k 1 0
    module logic ADDC 0 : q > d/12
    module match BUF : c > r/8
    module recv BUF : r > k/3
    bundle b r k d 2
    stim c 10=1
    stim q 10=7
  answer:
    22 bundle b late 4
  remedy:
    The data belong to that request, and were still under way when it came.
    Delay the request by more than this number of units and the setup
    together, or shorten the path of the data, which `mpwb why WIRE TIME` shows
    step by step.
",
};

pub(crate) const DEADLOCK: Entry = Entry {
    subject: Topic::Check(CheckWord::Deadlock),
    text: "
  meaning:
    modules wait for each other's wires in a cycle, and these wires keep
      their levels for ever, whatever stimuli set later; modules of all kinds
      may be in it
  example, read by `mpwb check`:
    horizon 40
    wire p 1 0
    wire q 1 0
    module x BUF : q > p/2
    module y BUF : p > q/2
  answer:
    0 deadlock x waits for q, y waits for p
  remedy:
    Look for a missing bubble first: a C waits for the answer of the next stage
    before it has passed anything on. The C of a stage that begins empty has a
    bubble (BUBA or BUBB is 1) at the input by which the next stage answers. Or
    no event was ever started: put a NOT in place of a BUF, or use the other
    INIT of a C and the same level at its wire. Or a ring is full: add a stage
    that begins empty. Or a CALL or an ARBITER waits for a done that only comes
    once the other client is served. If it is none of these, break the cycle.
",
};

pub(crate) const BECOMES: Entry = Entry {
    subject: Topic::Check(CheckWord::Becomes),
    text: "
  meaning:
    a wire is declared with another level than the port that drives it has at
      time 0, so it changes after the delay of the port
  example, read by `mpwb check`:
    horizon 20
    wire a 1 1
    wire y 1 0
    module b NOT : y > a/2
    module m BUF : a > y/3
  answer:
    note wire y is declared 0 and becomes 1 at 3
  remedy:
    If that first change isn't intended, declare the wire with the other
    level.
",
};

pub(crate) const UNDRIVEN: Entry = Entry {
    subject: Topic::Check(CheckWord::Undriven),
    text: "
  meaning:
    neither a port nor a stimulus drives a wire: it keeps its level, or it is
      unused if nothing reads it
  example, read by `mpwb check`:
    horizon 20
    wire a 1 0
    wire b 1 0
    module m BUF : a > -
  answer:
    note wire a is read, and nothing drives it
    note wire b is unused
  remedy:
    Let a port drive the wire, set it with `stim`, or remove it. A stimulus
    without changes, such as `stim a`, says that the level is meant to stay.
",
};

pub(crate) const UNREAD: Entry = Entry {
    subject: Topic::Check(CheckWord::Unread),
    text: "
  meaning:
    a wire has a stimulus, but no input and no bundle uses it
  example, read by `mpwb check`:
    horizon 20
    wire a 1 0
    stim a 5=1
  answer:
    note wire a has a stimulus, and nothing reads it
  remedy:
    Let a module read the wire, or remove it.
",
};

pub(crate) const BUSY: Entry = Entry {
    subject: Topic::Check(CheckWord::Busy),
    text: "
  meaning:
    nothing changes any more, and nobody ended a transfer of a bundle: its
      request and its acknowledge differ; the time is that of the last change of
      the request, 0 if there is none
  example, read by `mpwb check`:
    horizon 20
    wire r 1 0
    wire k 1 0
    wire d 4 0
    wire ok 1 0
    module recv C 0 0 0 : r ok > k/3
    bundle t r k d 1
    stim r 5=1
    stim d 2=3
    stim ok
  answer:
    note bundle t is busy since 5
  remedy:
    It is no fault if the environment just hasn't answered: set the stimulus
    that answers. If the transfer should have ended, `mpwb waits TIME` shows
    which module waits, and for which wire.
",
};
