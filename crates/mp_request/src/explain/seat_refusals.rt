//! The refusals that come only at a seat, explained code by code.
use crate::explain::entry::Entry;
use crate::explain::seat_code::SeatCode;
use crate::explain::topic::Topic;

pub(crate) const NOT_A_DESIGNER: Entry = Entry {
    subject: Topic::Seat(SeatCode::NotADesigner),
    text: "
  meaning:
    an edit at a viewer's seat, or in the desk's own input
  example, in a shell:
    cd $(mktemp -d)
    mkfifo designer-1.in designer-1.out
    echo horizon 20 > empty.net
    echo wire a 1 0 |
      mpwb desk empty.net --at . --designers 1 --viewers 0
  answer:
    refused 22 NotADesigner
    designer 1 accepted 0 refused 0
  remedy:
    Take the seat of a designer to edit the netlist.
",
};

pub(crate) const NO_WORK: Entry = Entry {
    subject: Topic::Seat(SeatCode::NoWork),
    text: "
  meaning:
    `work` at a seat: only `play` knows what an edit computed again
  example, in a shell:
    cd $(mktemp -d)
    mkfifo designer-1.in designer-1.out
    echo horizon 20 > empty.net
    echo work | mpwb desk empty.net --at . --designers 1 --viewers 0
  answer:
    refused 23 NoWork
    designer 1 accepted 0 refused 0
  remedy:
    Give the lines that `edits 1` writes, without their numbers, to
    `mpwb play`, and ask there.
",
};

pub(crate) const NOT_KEPT: Entry = Entry {
    subject: Topic::Seat(SeatCode::NotKept),
    text: "
  meaning:
    an edit that can't be written into the file `edits` of the desk's folder,
      and any edit after it
  example, in a shell:
    cd $(mktemp -d)
    mkfifo designer-1.in designer-1.out
    echo horizon 20 > empty.net
    sleep 2 | mpwb desk empty.net --at . --designers 1 --viewers 0 &
    exec 3< designer-1.out 4> designer-1.in
    rm edits
    echo wire a 1 0 >&4
    head -n 1 <&3
    exec 4>&-
    wait
  answer:
    mpwb: can't write ./edits
    refused 24 NotKept
    designer 1 accepted 0 refused 1
  remedy:
    Make room on the disk, or put the file `edits` back. Then end the desk and
    begin it again: it has every edit that was accepted.
",
};
