//! What `steady` writes, explained.
use crate::explain::entry::Entry;
use crate::explain::topic::Topic;

pub(crate) const STEADY: Entry = Entry {
    subject: Topic::Steady,
    text: "
  meaning:
    `repeats from T every P`: from T on all levels come again after P units, for
      ever
    `nothing changes after T`: all wires keep their levels from T on, for ever
    `control repeats from T every P`: this holds of the wires of width 1 and of
      what they depend on; other data don't repeat, or stimuli set them
    `control stands still after T`: these wires keep their levels from T on, for
      ever; other data go on
    `doesn't repeat before H`: no period was found up to the horizon H
  example, read by `mpwb steady`:
    horizon 40
    wire y 1 0
    module inv NOT : y > y/3
  answer:
    repeats from 0 every 6
    wire y 2
    cycle 6 from y 39
    module inv 6 2
  remedy:
    If it repeats, a wire has N changes in P units, and the modules of the cycle
    set the pace: the one with the most units first. If nothing changes any more,
    `mpwb waits TIME` says who waits. If no period was found, end the stimuli
    earlier, put modules in their place that send and receive events, as a NOT and
    a BUF do, or take a longer horizon.
",
};
