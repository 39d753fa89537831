//! The refusals of an edit for its names or for lack of room, explained code by code.
use crate::explain::entry::Entry;
use crate::explain::topic::Topic;
use mp_records::EditError;

pub(crate) const NAME_TAKEN: Entry = Entry {
    subject: Topic::Edit(EditError::NameTaken),
    text: "
  meaning:
    a new wire has the name of another wire, a new module that of another
      module, or a new bundle that of another bundle
  example, read by `mpwb play`:
    horizon 20
    wire a 1 0
    ---
    wire a 1 0
  answer:
    refused 1 NameTaken
  remedy:
    Choose another name, or first remove what has it. Wires, modules and
    bundles are named independently, so a wire and a module may share a name.
",
};

pub(crate) const BAD_NAME: Entry = Entry {
    subject: Topic::Edit(EditError::BadName),
    text: "
  meaning:
    not a name: a name is a letter, then letters, digits and `_`, at most 32
      characters in all
  example, read by `mpwb play`:
    horizon 20
    ---
    wire 1a 1 0
  answer:
    refused 2 BadName
  remedy:
    Begin the name with a letter, and write `_` for other characters.
",
};

pub(crate) const NO_SUCH_WIRE: Entry = Entry {
    subject: Topic::Edit(EditError::NoSuchWire),
    text: "
  meaning:
    no wire has the name
  example, read by `mpwb play`:
    horizon 20
    wire a 1 0
    ---
    stim x 1=1
  answer:
    refused 3 NoSuchWire
  remedy:
    Correct the name (upper and lower case differ), or add the wire on an
    earlier line. Only an output may be without a wire: `-`.
",
};

pub(crate) const NO_SUCH_MODULE: Entry = Entry {
    subject: Topic::Edit(EditError::NoSuchModule),
    text: "
  meaning:
    no module has the name
  example, read by `mpwb play`:
    horizon 20
    wire a 1 0
    ---
    delay x 0 1
  answer:
    refused 4 NoSuchModule
  remedy:
    Correct the name, or add the module on an earlier line. `text` lists the
    modules.
",
};

pub(crate) const NO_SUCH_BUNDLE: Entry = Entry {
    subject: Topic::Edit(EditError::NoSuchBundle),
    text: "
  meaning:
    no bundle has the name
  example, read by `mpwb play`:
    horizon 20
    wire a 1 0
    ---
    remove bundle p
  answer:
    refused 5 NoSuchBundle
  remedy:
    Correct the name. `text` lists the bundles.
",
};

pub(crate) const ALREADY_DRIVEN: Entry = Entry {
    subject: Topic::Edit(EditError::AlreadyDriven),
    text: "
  meaning:
    a wire for an output that has a stimulus, that another port drives, or
      that two outputs name; a stimulus for a wire that a port drives
  example, read by `mpwb play`:
    horizon 20
    wire a 1 0
    wire y 1 0
    module b BUF : a > y/3
    ---
    stim y 1=1
  answer:
    refused 13 AlreadyDriven
  remedy:
    A wire has one driver. Merge the events of two wires with a XOR, or free
    the wire first: `clear WIRE` removes its stimulus, and
    `output MODULE PORT -` disconnects an output from it.
",
};

pub(crate) const STILL_USED: Entry = Entry {
    subject: Topic::Edit(EditError::StillUsed),
    text: "
  meaning:
    a module or a bundle still uses the wire
  example, read by `mpwb play`:
    horizon 20
    wire a 1 0
    module b BUF : a > -
    ---
    remove wire a
  answer:
    refused 14 StillUsed
  remedy:
    First rewire or remove what uses it; `text` shows that. A stimulus is
    removed together with its wire.
",
};

pub(crate) const TABLE_FULL: Entry = Entry {
    subject: Topic::Edit(EditError::TableFull),
    text: "
  meaning:
    8,192 wires, 4,096 modules or 1,024 bundles have been added, including
      removed ones; with `format 4` 2,097,152, 1,048,576 or 262,144
  example, in a shell:
    (echo horizon 20; seq -f 'wire w%g 1 0' 8193) | mpwb waves
  answer:
    mpwb: line 8194: 7 Refused: 17 TableFull
  remedy:
    Begin the netlist with `format 4`. Or, if many things were removed, start
    again from the netlist that `text` writes, in which they no longer count.
",
};

pub(crate) const HISTORY_FULL: Entry = Entry {
    subject: Topic::Edit(EditError::HistoryFull),
    text: "
  meaning:
    4,096 edits have been accepted already
  example, in a shell:
    (echo horizon 20; echo wire a 1 0; echo ---; yes stim a | head -n 4097) |
      mpwb play | tail -n 1
  answer:
    refused 18 HistoryFull
  remedy:
    Make several edits as one with `batch`, or begin another script with the
    netlist that `text` writes.
",
};

pub(crate) const OUT_OF_MEMORY: Entry = Entry {
    subject: Topic::Edit(EditError::OutOfMemory),
    text: "
  meaning:
    memory ran out; a batch may be answered so in place of 18 or 21
  example, in a shell:
    (echo format 2; echo horizon 1048576; echo wire y 1 0
      echo ---; echo 'module m NOT : y > y/1') | (ulimit -v 6000; mpwb play)
  answer:
    refused 19 OutOfMemory
  remedy:
    The netlist is as it was before the edit. Give the program more memory, or
    the netlist a smaller horizon.
",
};
