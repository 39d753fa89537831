//! The refusals of an edit for its numbers and its shape, explained code by code.
use crate::explain::entry::Entry;
use crate::explain::topic::Topic;
use mp_records::EditError;

pub(crate) const BAD_WIDTH: Entry = Entry {
    subject: Topic::Edit(EditError::BadWidth),
    text: "
  meaning:
    a width that isn't 1 to 64
  example, read by `mpwb play`:
    horizon 20
    ---
    wire c 65 0
  answer:
    refused 6 BadWidth
  remedy:
    Split wider data over several wires.
",
};

pub(crate) const BAD_LEVEL: Entry = Entry {
    subject: Topic::Edit(EditError::BadLevel),
    text: "
  meaning:
    a level that isn't below `2^width`
  example, read by `mpwb play`:
    horizon 20
    ---
    wire c 1 2
  answer:
    refused 7 BadLevel
  remedy:
    Make the wire wider, or its level lower: a wire of width 1 is 0 or 1.
",
};

pub(crate) const BAD_DELAY: Entry = Entry {
    subject: Topic::Edit(EditError::BadDelay),
    text: "
  meaning:
    a delay of an output that isn't 1 to 65,535, even without a wire; a delay
      of an input above 65,535
  example, read by `mpwb play`:
    horizon 20
    wire a 1 0
    module b BUF : a > -
    ---
    delay b 0 0
  answer:
    refused 8 BadDelay
  remedy:
    No module answers at once: give its output at least 1 unit. If that is too
    long, use a smaller unit for all delays. For a longer delay connect BUFs
    in a row.
",
};

pub(crate) const BAD_PORT: Entry = Entry {
    subject: Topic::Edit(EditError::BadPort),
    text: "
  meaning:
    the module has no port of this number
  example, read by `mpwb play`:
    horizon 20
    wire a 1 0
    module b BUF : a > -
    ---
    delay b 1 3
  answer:
    refused 9 BadPort
  remedy:
    Count the ports from 0, inputs and outputs separately, in the order that
    `mpwb explain KIND` shows.
",
};

pub(crate) const WRONG_PORTS: Entry = Entry {
    subject: Topic::Edit(EditError::WrongPorts),
    text: "
  meaning:
    more or fewer inputs or outputs than the kind has
  example, read by `mpwb play`:
    horizon 20
    wire a 1 0
    ---
    module c BUF : a a > -
  answer:
    refused 10 WrongPorts
  remedy:
    Name all inputs and outputs that `mpwb explain KIND` shows. An output that
    drives nothing is `-`.
",
};

pub(crate) const BAD_PARAM: Entry = Entry {
    subject: Topic::Edit(EditError::BadParam),
    text: "
  meaning:
    more or fewer parameters than the kind has, or one out of its range; a
      setup of a bundle above 65,535
  example, read by `mpwb play`:
    horizon 20
    wire a 1 0
    ---
    module c BUF 1 : a > -
  answer:
    refused 11 BadParam
  remedy:
    Write the parameters that `mpwb explain KIND` shows, between the kind and
    the `:`.
",
};

pub(crate) const WIDTH_MISMATCH: Entry = Entry {
    subject: Topic::Edit(EditError::WidthMismatch),
    text: "
  meaning:
    a wire with another width than its port; a request or an acknowledge of a
      bundle with another width than 1
  example, read by `mpwb play`:
    horizon 20
    wire d 8 0
    ---
    module c NOT : d > -
  answer:
    refused 12 WidthMismatch
  remedy:
    Choose a wire with the width of the port (`mpwb explain KIND`), or take
    one bit of a wider wire with a BIT. The width of a module is that of the
    wire at its first input when the module is added, and doesn't change.
",
};

pub(crate) const BAD_STIMULUS: Entry = Entry {
    subject: Topic::Edit(EditError::BadStimulus),
    text: "
  meaning:
    a time that is 0 or not below the horizon, a time that isn't above the one
      before it, or a value that isn't below `2^width`
  example, read by `mpwb play`:
    horizon 20
    wire a 1 0
    ---
    stim a 20=1
  answer:
    refused 15 BadStimulus
  remedy:
    List the changes in order of time, from 1 to the last time below the
    horizon. The `wire` statement sets the level at time 0.
",
};

pub(crate) const NO_STIMULUS: Entry = Entry {
    subject: Topic::Edit(EditError::NoStimulus),
    text: "
  meaning:
    the wire has no stimulus
  example, read by `mpwb play`:
    horizon 20
    wire d 8 0
    ---
    clear d
  answer:
    refused 16 NoStimulus
  remedy:
    There is nothing to clear: the wire keeps its initial level, or a module
    drives it.
",
};

pub(crate) const BAD_BATCH: Entry = Entry {
    subject: Topic::Edit(EditError::BadBatch),
    text: "
  meaning:
    a batch without edits or with more than 256
  example, in a shell:
    (echo horizon 20; echo wire a 1 0; echo ---
      echo batch $(yes 'stim a ;' | head -n 256) stim a) | mpwb play
  answer:
    refused 20 BadBatch
  remedy:
    Split the edits into several batches.
",
};

pub(crate) const IN_BATCH: Entry = Entry {
    subject: Topic::Edit(EditError::InBatch {
        place: 2,
        number: 16,
    }),
    text: "
  meaning:
    an edit of a batch is refused
  example, read by `mpwb play`:
    horizon 20
    wire a 1 0
    stim a 2=1
    ---
    batch clear a ; clear a
  answer:
    refused 21 InBatch 2 16 NoStimulus
  remedy:
    Correct the edit at this place of the batch, counted from 1; its own code
    comes after the place. None of the edits was made.
",
};
