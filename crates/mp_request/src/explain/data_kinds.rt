//! The kinds of module that hold data and compute on data.
use crate::explain::entry::Entry;
use crate::explain::topic::Topic;
use mp_modules::{Function, Kind};

pub(crate) const REG: Entry = Entry {
    subject: Topic::Kind(Kind::Reg),
    text: "
  parameters:
    INIT, below `2^w`
  inputs:
    d of any width `w`, c, p
  outputs:
    q of width `w`, cd, pd
  table:
    REG holds data. It is open while capture `c` and pass `p` have equal
    levels, whatever levels they began at, and otherwise held. At each time
    from 0 on `q` is `d` if the REG is open, and otherwise what it was one
    unit before. Before time 0 it is INIT. `cd` is `c` and `pd` is `p`.
  findings:
    8 capture-while-held
    9 pass-while-open
    10 data-at-capture
  example, read by `mpwb waves`:
    horizon 20
    wire d 8 1
    wire c 1 0
    wire p 1 0
    wire q 8 1
    module m REG 0 : d c p > q/1 - -
    stim d 2=5 7=6
    stim c 4=1
    stim p 9=1
  answer:
    d 1 2=5 7=6
    c 0 4=1
    p 0 9=1
    q 1 3=5 10=6
",
};

pub(crate) const ADDC: Entry = Entry {
    subject: Topic::Kind(Kind::Function(Function::AddC)),
    text: "
  parameters:
    k, below `2^w`
  inputs:
    a of any width `w`
  outputs:
    y of width `w`
  table:
    ADDC gives `a + k` modulo `2^w`.
  findings:
    none
  example, read by `mpwb waves`:
    horizon 20
    wire a 8 0
    wire y 8 3
    module m ADDC 3 : a > y/1
    stim a 4=254
  answer:
    a 0 4=254
    y 3 5=1
",
};

pub(crate) const XORC: Entry = Entry {
    subject: Topic::Kind(Kind::Function(Function::XorC)),
    text: "
  parameters:
    k, below `2^w`
  inputs:
    a of any width `w`
  outputs:
    y of width `w`
  table:
    XORC gives the bitwise exclusive or of `a` and `k`.
  findings:
    none
  example, read by `mpwb waves`:
    horizon 20
    wire a 8 0
    wire y 8 5
    module m XORC 5 : a > y/1
    stim a 4=12
  answer:
    a 0 4=12
    y 5 5=9
",
};

pub(crate) const SUM: Entry = Entry {
    subject: Topic::Kind(Kind::Function(Function::Sum)),
    text: "
  parameters:
    none
  inputs:
    a of any width `w`, b of width `w`
  outputs:
    y of width `w`
  table:
    SUM gives `a + b` modulo `2^w`.
  findings:
    none
  example, read by `mpwb waves`:
    horizon 20
    wire a 8 1
    wire b 8 2
    wire y 8 3
    module m SUM : a b > y/1
    stim a 4=7
    stim b 6=250
  answer:
    a 1 4=7
    b 2 6=250
    y 3 5=9 7=1
",
};

pub(crate) const BIT: Entry = Entry {
    subject: Topic::Kind(Kind::Function(Function::Bit)),
    text: "
  parameters:
    k, below `w`
  inputs:
    a of any width `w`
  outputs:
    y
  table:
    BIT gives bit `k` of `a`; bit 0 is the least significant one.
  findings:
    none
  example, read by `mpwb waves`:
    horizon 20
    wire a 8 0
    wire y 1 0
    module m BIT 2 : a > y/1
    stim a 4=6 8=3
  answer:
    a 0 4=6 8=3
    y 0 5=1 9=0
",
};
