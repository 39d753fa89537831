//! The kinds of module that texts of format 4 have besides the others.
use crate::explain::entry::Entry;
use crate::explain::topic::Topic;
use mp_modules::{Function, Kind};

pub(crate) const AND: Entry = Entry {
    subject: Topic::Kind(Kind::Function(Function::And)),
    text: "
  parameters:
    none
  inputs:
    a of any width `w`, b of width `w`
  outputs:
    y of width `w`
  table:
    AND gives the bitwise and of `a` and `b`.
  findings:
    none
  example, read by `mpwb waves`:
    format 4
    horizon 20
    wire a 8 12
    wire b 8 10
    wire y 8 8
    module m AND : a b > y/1
    stim a 4=7
    stim b 6=255
  answer:
    a 12 4=7
    b 10 6=255
    y 8 5=2 7=7
",
};

pub(crate) const OR: Entry = Entry {
    subject: Topic::Kind(Kind::Function(Function::Or)),
    text: "
  parameters:
    none
  inputs:
    a of any width `w`, b of width `w`
  outputs:
    y of width `w`
  table:
    OR gives the bitwise or of `a` and `b`.
  findings:
    none
  example, read by `mpwb waves`:
    format 4
    horizon 20
    wire a 8 12
    wire b 8 10
    wire y 8 14
    module m OR : a b > y/1
    stim a 4=7
    stim b 6=255
  answer:
    a 12 4=7
    b 10 6=255
    y 14 5=15 7=255
",
};

pub(crate) const SUB: Entry = Entry {
    subject: Topic::Kind(Kind::Function(Function::Sub)),
    text: "
  parameters:
    none
  inputs:
    a of any width `w`, b of width `w`
  outputs:
    y of width `w`
  table:
    SUB gives `a - b` modulo `2^w`.
  findings:
    none
  example, read by `mpwb waves`:
    format 4
    horizon 20
    wire a 8 7
    wire b 8 2
    wire y 8 5
    module m SUB : a b > y/1
    stim a 4=1
    stim b 6=1
  answer:
    a 7 4=1
    b 2 6=1
    y 5 5=255 7=0
",
};

pub(crate) const LESS: Entry = Entry {
    subject: Topic::Kind(Kind::Function(Function::Less)),
    text: "
  parameters:
    none
  inputs:
    a of any width `w`, b of width `w`
  outputs:
    y
  table:
    LESS gives 1 if `a` is less than `b`, and otherwise 0.
  findings:
    none
  example, read by `mpwb waves`:
    format 4
    horizon 20
    wire a 8 3
    wire b 8 5
    wire y 1 1
    module m LESS : a b > y/1
    stim a 4=5
    stim b 6=200
  answer:
    a 3 4=5
    b 5 6=200
    y 1 5=0 7=1
",
};

pub(crate) const MUX: Entry = Entry {
    subject: Topic::Kind(Kind::Function(Function::Mux)),
    text: "
  parameters:
    none
  inputs:
    a of any width `w`, b of width `w`, s
  outputs:
    y of width `w`
  table:
    MUX gives `a` if `s` is 0, and `b` if it is 1.
  findings:
    none
  example, read by `mpwb waves`:
    format 4
    horizon 20
    wire a 8 3
    wire b 8 5
    wire s 1 0
    wire y 8 3
    module m MUX : a b s > y/1
    stim a 6=9
    stim s 4=1 8=0
  answer:
    a 3 6=9
    b 5
    s 0 4=1 8=0
    y 3 5=5 9=9
",
};

pub(crate) const JOIN: Entry = Entry {
    subject: Topic::Kind(Kind::Function(Function::Join)),
    text: "
  parameters:
    none
  inputs:
    a of any width `w` up to 63, b
  outputs:
    y of width `w + 1`
  table:
    JOIN gives `2 a + b`: `b` is the least significant bit.
  findings:
    none
  example, read by `mpwb waves`:
    format 4
    horizon 20
    wire a 4 5
    wire b 1 0
    wire y 5 10
    module m JOIN : a b > y/1
    stim a 6=9
    stim b 4=1
  answer:
    a 5 6=9
    b 0 4=1
    y 10 5=11 7=19
",
};
