//! The faults of netlists' texts and of script lines, explained code by code.
use crate::explain::entry::Entry;
use crate::explain::topic::Topic;
use mp_records::EditError;
use mp_text::{LineError, TextCode};

pub(crate) const NOT_ASCII: Entry = Entry {
    subject: Topic::Text(TextCode::Line(LineError::NotAscii)),
    text: "
  meaning:
    a byte that isn't allowed, even in a comment
  example, read by `mpwb waves`:
    horizon 20 # µ
  answer:
    mpwb: line 1: 1 NotAscii
  remedy:
    Write names and comments in ASCII, for example `us` for microseconds. Tab,
    carriage return and the bytes 32 to 126 are allowed.
",
};

pub(crate) const UNKNOWN_STATEMENT: Entry = Entry {
    subject: Topic::Text(TextCode::Line(LineError::UnknownStatement)),
    text: "
  meaning:
    in a netlist: the first word isn't a statement
    in a netlist: the kind of a `module` doesn't exist, or needs `format 4`
    in a script: the first word begins neither an edit nor a question;
      `horizon` and `format` don't either
    in a script: the second word of `remove` isn't `wire`, `module` or
      `bundle`, or the kind of a `module` doesn't exist
  example, read by `mpwb waves`:
    horizon 20
    flip a
  answer:
    mpwb: line 2: 2 UnknownStatement
  remedy:
    Correct the word. The statements are `format`, `horizon`, `wire`,
    `module`, `stim` and `bundle`, in lower case. Kinds are in upper case, and
    `mpwb explain` lists them. AND, OR, SUB, LESS, MUX and JOIN need
    `format 4` on the first line. `mpwb play --help` lists the lines of a
    script. A comment begins with `#`.
",
};

pub(crate) const WORD_COUNT: Entry = Entry {
    subject: Topic::Text(TextCode::Line(LineError::WordCount)),
    text: "
  meaning:
    too few or too many words, or a `module` without `:`, `>`, an input or an
      output
    in a script: behind the wires of `show` stands a word that is no option,
      or an option twice
  example, read by `mpwb waves`:
    horizon 20
    wire b 1
  answer:
    mpwb: line 2: 3 WordCount
  remedy:
    `mpwb waves --help` shows the form of each statement, and
    `mpwb play --help` that of each line of a script. Blanks separate words,
    also around the `:` and the `>` of a `module`.
",
};

pub(crate) const BAD_NUMBER: Entry = Entry {
    subject: Topic::Text(TextCode::Line(LineError::BadNumber)),
    text: "
  meaning:
    a word that should be a number, `OUT/DELAY` or `T=V` and isn't; an input
      with a `/` that isn't `IN/E`
    in a netlist: a horizon that isn't 1 to 65,536, or with `format 2` 1 to
      1,048,576, or with `format 4` 1 to 1,073,741,824
    in a script: the steps of `why` aren't 1 to 1,048,576
    in a script: the columns of `show` aren't 1 to 10,000
    in a script: the number after `edits` is 0, or greater than that of the
      next edit
  example, read by `mpwb waves`:
    horizon 20
    wire a 1 0
    stim a 2
  answer:
    mpwb: line 3: 4 BadNumber
  remedy:
    Write a number with 1 to 20 digits, below 2^64, and `T=V`, `OUT/DELAY` and
    `IN/E` without blanks. An output without a wire is `-`.
",
};

pub(crate) const NO_HORIZON: Entry = Entry {
    subject: Topic::Text(TextCode::NoHorizon),
    text: "
  meaning:
    in a netlist: another statement before the first `horizon`
    in a netlist: the text ends without a `horizon`; the line is the last one
  example, read by `mpwb waves`:
    wire a 1 0
  answer:
    mpwb: line 1: 5 NoHorizon
  remedy:
    Begin the netlist with `horizon H`; only a `format` may come before it. H
    is the first time that isn't computed.
",
};

pub(crate) const SECOND_HORIZON: Entry = Entry {
    subject: Topic::Text(TextCode::SecondHorizon),
    text: "
  meaning:
    in a netlist: a `horizon` after the first
  example, read by `mpwb waves`:
    horizon 20
    horizon
  answer:
    mpwb: line 2: 6 SecondHorizon
  remedy:
    Keep one of them. No edit can change a horizon either.
",
};

pub(crate) const REFUSED: Entry = Entry {
    subject: Topic::Text(TextCode::Refused(EditError::NameTaken)),
    text: "
  meaning:
    in a netlist: the netlist refuses what the line adds, with a code of its
      own
  example, read by `mpwb waves`:
    horizon 20
    wire a 1 0
    wire a 1 0
  answer:
    mpwb: line 3: 7 Refused: 1 NameTaken
  remedy:
    Look up the code after `Refused:`, here with `mpwb explain NameTaken`.
",
};

pub(crate) const TOO_LONG: Entry = Entry {
    subject: Topic::Text(TextCode::TooLong),
    text: "
  meaning:
    in a netlist: line 0: the text is longer than 4,194,304 bytes, or with
      `format 4` than 1,073,741,824
    in a script: a line of more than 65,536 bytes, in `mpwb play FILE`
  example, in a shell:
    yes '#' | head -c 4194305 | mpwb waves
  answer:
    mpwb: line 0: 8 TooLong
  remedy:
    Shorten the text, or begin it with `format 4`. Comments and blanks count,
    and so does a script after a netlist, but not a script for
    `mpwb play FILE`.
",
};

pub(crate) const LINE_OUT_OF_MEMORY: Entry = Entry {
    subject: Topic::Text(TextCode::Line(LineError::OutOfMemory)),
    text: "
  meaning:
    in a netlist: memory ran out at this line; the program answers
      `mpwb: out of memory`
    in a script: memory ran out
  example, in a shell:
    (echo horizon 20; yes '#' | head -c 4000000) | (ulimit -v 6000; mpwb waves)
  answer:
    mpwb: out of memory
  remedy:
    Give the program more memory, or the netlist a smaller horizon.
",
};

pub(crate) const BAD_FORMAT: Entry = Entry {
    subject: Topic::Text(TextCode::BadFormat),
    text: "
  meaning:
    in a netlist: a `format` that isn't on the first line with words, whatever
      follows it
    in a netlist: the number of a `format` isn't 1, 2 or 4
  example, read by `mpwb waves`:
    format 3
  answer:
    mpwb: line 1: 10 BadFormat
  remedy:
    Remove the statement, or put it first. `format 2` allows a horizon above
    65,536, and `format 4` a larger netlist as well. A text without it has the
    format 1.
",
};
