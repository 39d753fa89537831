//! The kinds of module that steer events.
use crate::explain::entry::Entry;
use crate::explain::topic::Topic;
use mp_modules::{Function, Kind};

pub(crate) const BUF: Entry = Entry {
    subject: Topic::Kind(Kind::Function(Function::Buf)),
    text: "
  parameters:
    none
  inputs:
    a of any width `w`
  outputs:
    y of width `w`
  table:
    BUF gives `a`.
  findings:
    none
  example, read by `mpwb waves`:
    horizon 20
    wire a 1 0
    wire y 1 0
    module m BUF : a > y/3
    stim a 2=1 5=0
  answer:
    a 0 2=1 5=0
    y 0 5=1 8=0
",
};

pub(crate) const NOT: Entry = Entry {
    subject: Topic::Kind(Kind::Function(Function::Not)),
    text: "
  parameters:
    none
  inputs:
    a
  outputs:
    y
  table:
    NOT gives `1 - a`.
  findings:
    none
  example, read by `mpwb waves`:
    horizon 20
    wire a 1 0
    wire y 1 1
    module m NOT : a > y/3
    stim a 2=1 5=0
  answer:
    a 0 2=1 5=0
    y 1 5=0 8=1
",
};

pub(crate) const XOR: Entry = Entry {
    subject: Topic::Kind(Kind::Function(Function::Xor)),
    text: "
  parameters:
    none
  inputs:
    a, b
  outputs:
    y
  table:
    XOR gives 1 if `a` and `b` differ, and otherwise 0. So it merges two
    streams of events.
  findings:
    1 merge-collision
  example, read by `mpwb waves`:
    horizon 20
    wire a 1 0
    wire b 1 0
    wire y 1 0
    module m XOR : a b > y/1
    stim a 2=1
    stim b 5=1
  answer:
    a 0 2=1
    b 0 5=1
    y 0 3=1 6=0
",
};

pub(crate) const C: Entry = Entry {
    subject: Topic::Kind(Kind::C),
    text: "
  parameters:
    INIT, BUBA, BUBB, each 0 or 1
  inputs:
    a, b
  outputs:
    y
  table:
    C is the rendezvous of two events. Let `a'` be `a`, or `1 - a` if BUBA is
    1 (a bubble on that input), and `b'` likewise with BUBB. At each time from
    0 on the output is `a'` if `a' = b'`, and otherwise what it was one unit
    before. Before time 0 it is INIT.
  findings:
    2 withdrawn
  example, read by `mpwb waves`:
    horizon 20
    wire a 1 0
    wire b 1 0
    wire y 1 0
    module m C 0 0 0 : a b > y/2
    stim a 3=1 10=0
    stim b 6=1 12=0
  answer:
    a 0 3=1 10=0
    b 0 6=1 12=0
    y 0 8=1 14=0
",
};

pub(crate) const TOGGLE: Entry = Entry {
    subject: Topic::Kind(Kind::Toggle),
    text: "
  parameters:
    none
  inputs:
    a
  outputs:
    dot, blank
  table:
    TOGGLE begins with both outputs at 0. The events of `a` change the outputs
    in turn: the first one changes dot, the second one blank, the third one
    dot again.
  findings:
    none
  example, read by `mpwb waves`:
    horizon 20
    wire a 1 0
    wire dot 1 0
    wire blank 1 0
    module m TOGGLE : a > dot/1 blank/1
    stim a 2=1 5=0 9=1
  answer:
    a 0 2=1 5=0 9=1
    dot 0 3=1 10=0
    blank 0 6=1
",
};

pub(crate) const SELECT: Entry = Entry {
    subject: Topic::Kind(Kind::Select),
    text: "
  parameters:
    none
  inputs:
    a, diamond
  outputs:
    true, false
  table:
    SELECT begins with both outputs at 0. An event of `a` changes true if the
    level at the diamond is 1 at that time, and otherwise false.
  findings:
    3 select-unstable
  example, read by `mpwb waves`:
    horizon 20
    wire a 1 0
    wire diamond 1 0
    wire yes 1 0
    wire no 1 0
    module m SELECT : a diamond > yes/1 no/1
    stim a 2=1 6=0
    stim diamond 4=1
  answer:
    a 0 2=1 6=0
    diamond 0 4=1
    yes 0 7=1
    no 0 3=1
",
};

pub(crate) const CALL: Entry = Entry {
    subject: Topic::Kind(Kind::Call),
    text: "
  parameters:
    none
  inputs:
    r1, r2, d
  outputs:
    r, d1, d2
  table:
    CALL lets two clients share one procedure. All outputs begin at 0, and
    nobody is served. Within one unit, in this order:
    1. an event of `d` changes the done output of the client that is served,
       and then nobody is served; if nobody is served, it is ignored;
    2. an event of `r1` changes `r` if nobody is served, and then the first
       client is served; otherwise it is ignored;
    3. an event of `r2` likewise, for the second client.
  findings:
    4 call-overlap
    5 done-without-call
  example, read by `mpwb waves`:
    horizon 20
    wire r1 1 0
    wire r2 1 0
    wire d 1 0
    wire r 1 0
    wire d1 1 0
    wire d2 1 0
    module m CALL : r1 r2 d > r/1 d1/1 d2/1
    stim r1 2=1
    stim r2 8=1
    stim d 5=1 11=0
  answer:
    r1 0 2=1
    r2 0 8=1
    d 0 5=1 11=0
    r 0 3=1 9=0
    d1 0 6=1
    d2 0 12=1
",
};

pub(crate) const ARBITER: Entry = Entry {
    subject: Topic::Kind(Kind::Arbiter),
    text: "
  parameters:
    none
  inputs:
    r1, r2, d1, d2
  outputs:
    g1, g2
  table:
    ARBITER grants one of two ports at a time. Both outputs begin at 0, nobody
    owns and nobody waits. Within one unit, in this order:
    1. a done event of the port that owned before the unit ends its
       ownership; any other done event is ignored;
    2. if nobody owns now and a port waited before the unit, the grant output
       of that port changes, and it owns and no longer waits;
    3. a request event of the first port is ignored if that port owns or
       waits; otherwise, if nobody owns, its grant output changes and it owns;
       otherwise it waits;
    4. a request event of the second port likewise.
  findings:
    6 repeat-request
    7 done-without-grant
  example, read by `mpwb waves`:
    horizon 20
    wire r1 1 0
    wire r2 1 0
    wire d1 1 0
    wire d2 1 0
    wire g1 1 0
    wire g2 1 0
    module m ARBITER : r1 r2 d1 d2 > g1/1 g2/1
    stim r1 2=1
    stim r2 3=1
    stim d1 6=1
  answer:
    r1 0 2=1
    r2 0 3=1
    d1 0 6=1
    d2 0
    g1 0 3=1
    g2 0 7=1
",
};
