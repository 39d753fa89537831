//! What an XOR and a C of a netlist do with events.
ghost use Rattle.mp_laws.specs.ModuleEvents.{MergesEvents, JoinsEvents, KeepsPace};

/// The output of an XOR has an event exactly if one of its inputs has an event and the other has none.
pub fn xor_merges_events()
    ensures { MergesEvents }
{}

/// A C at which nothing was found has had as many events as each input, but for one of an input that waits for the other; an input that waits at time
/// 0 counts as having had one event. So if the inputs agree at time 0, behind their bubbles, it has had as many events as each input, or one fewer.
pub fn c_joins_events()
    ensures counts { JoinsEvents }
    ensures pace { KeepsPace }
{}
