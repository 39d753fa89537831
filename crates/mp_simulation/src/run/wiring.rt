//! Which inputs read each wire, and the delayed copies of wires that inputs with a delay read.
ghost use Rattle.std.specs.Prelude.{◌≡◌, ℕ, ◌*◌, ◌+◌, ◌-◌, ◌<◌, ◌≤◌, ◌^◌, Some, IfOk, OnOk, length};
ghost use Rattle.mp_netlist.specs.Circuit.{IsCircuit, module_at};
ghost use Rattle.mp_kernel.specs.events.Firing.{copy_at};
ghost use Rattle.mp_simulation.specs.run.Numbers.{AreLinks, copy_within, behind, IsPlace, noted};
ghost use Rattle.mp_simulation.specs.run.Wirings.{HaveRows, IsWiring, AreUnread, HasRead, inputs_in, AreWiredInputs};

use mp_kernel::{FanoutEntry, FanoutRow, OutputPort};
use mp_modules::{MOST_INPUTS, event_bit};
use mp_netlist::{Input, ModuleId};
use mp_partition::Region;
use std::alloc::{AllocError, Global};

/// Each number, of a wire or of a delayed copy of one, has the inputs that read it, the copy that is next later, if any, and its wire.
#[derive(Drop)]
pub struct Wiring {
    pub rows: Vec<FanoutRow>,
    pub next: Vec<OutputPort>,
    pub wires: Vec<u32>,
}

/// The wires and all that their readers need, and the numbers that the inputs of each module read, by port.
#[derive(Drop)]
pub struct WiredInputs {
    pub wiring: Wiring,
    pub inputs: Vec<[Option<u32>; MOST_INPUTS]>,
}

/// The place of a wanted copy of a wire: the latest number of the wire that isn't later than it, and how much later it is than that.
#[derive(Clone, Copy)]
struct CopyPlace {
    number: u32,
    later: u16,
}

/// The wires and all that their readers need, with what each module reads.
pub(crate) fn wiring_of(alloc: Global, netlist: &Region<'_>) -> Result<WiredInputs, AllocError>
    requires { IsCircuit netlist.now }
    ensures { IfOk result (λ wired. AreWiredInputs netlist.now (length netlist.now.modules) wired.wiring wired.inputs.items) }
{
    let mut wiring = unread_wires(alloc, netlist.wire_slots())?;
    let mut inputs = Vec::new(alloc);
    for m in 0..netlist.module_slots() {
        inputs.push(add_slot(netlist, ModuleId(m), &mut wiring)?)?;
    }
    Ok(WiredInputs { wiring, inputs })
}

/// Adds the inputs of the module of this number, if there is one, and returns the numbers that they read.
fn add_slot(
    netlist: &Region<'_>,
    id: ModuleId,
    wiring: &mut Wiring,
) -> Result<[Option<u32>; MOST_INPUTS], AllocError>
    requires form { IsCircuit netlist.now }
    requires numbers { length wiring.old.next.items + 4 < 2 ^ 32 }
    requires wires { length netlist.now.wires ≤ length wiring.old.next.items }
    requires rows { HaveRows wiring.old }
    requires links { AreLinks 65535 wiring.old.next.items }
    ensures { IfOk result (λ numbers. HasRead wiring.old wiring.new id.0 (inputs_in (module_at netlist.now id.0)) numbers) }
{
    match netlist.module(id) {
        Some(found) => wiring.add_module(id.0, found.inputs.as_slice()),
        None => Ok([None; MOST_INPUTS]),
    }
}

/// Wires that nothing reads.
fn unread_wires(alloc: Global, wires: u32) -> Result<Wiring, AllocError>
    ensures { IfOk result (λ wiring. AreUnread wires wiring) }
{
    let mut wiring = Wiring {
        rows: Vec::new(alloc),
        next: Vec::new(alloc),
        wires: Vec::new(alloc),
    };
    for wire in 0..wires {
        wiring.add_number(OutputPort {
            wire: None,
            delay: 1,
        })?;
        wiring.wires.push(wire)?;
    }
    Ok(wiring)
}

impl Wiring {
    ghost use Rattle.std.specs.Prelude.{◌≡◌, ℕ, ◌+◌, ◌<◌, ◌≤◌, ◌^◌, ◌++◌, ◌∷◌, [], All, IfOk, OnOk, length};
    ghost use Rattle.mp_records.specs.declared.ports.Input.{Input as Entry};
    ghost use Rattle.mp_simulation.specs.bits.PortEvents.{source_of};
    ghost use Rattle.mp_simulation.specs.run.Numbers.{AreLinks, HasRoom, inserted, HasNumber};
    ghost use Rattle.mp_simulation.specs.run.Wirings.{HaveRows, KeepsRows, CanRead, AddsInputs, HasRead};

    /// Adds the inputs of a module at a place, and gives the numbers that they read.
    fn add_module(
        &mut self,
        place: u32,
        inputs: &[Input],
    ) -> Result<[Option<u32>; MOST_INPUTS], AllocError>
        requires few { length inputs.now ≤ 4 }
        requires numbers { length self.old.next.items + length inputs.now < 2 ^ 32 }
        requires inputs { All (CanRead (length self.old.next.items)) inputs.now }
        requires rows { HaveRows self.old }
        requires links { AreLinks 65535 self.old.next.items }
        ensures { IfOk result (λ numbers. HasRead self.old self.new place inputs.now numbers) }
    {
        let mut numbers = [None; MOST_INPUTS];
        for (port, input) in inputs.iter().enumerate() {
            let entry = FanoutEntry {
                module: place,
                event: event_bit(port),
            };
            let number = self.add_input(*input, entry)?;
            numbers[port] = Some(number);
        }
        Ok(numbers)
    }

    /// Adds an input, and gives the number that it reads.
    fn add_input(&mut self, input: Input, entry: FanoutEntry) -> Result<u32, AllocError>
        requires numbers { length self.old.next.items + 1 < 2 ^ 32 }
        requires input { CanRead (length self.old.next.items) input }
        requires rows { HaveRows self.old }
        requires links { AreLinks 65535 self.old.next.items }
        ensures { IfOk result (λ number. (port : ℕ) → entry.event ≡ 2 ^ port → AddsInputs self.old self.new entry.module port (input ∷ []) (number ∷ [])) }
    {
        let number = self.number_of(input)?;
        note_wire(number, input.wire.0, &mut self.wires)?;
        self.rows[number as usize].push(entry)?;
        Ok(number)
    }

    /// The number that an input reads. A copy that was not there before is added.
    fn number_of(&mut self, input: Input) -> Result<u32, AllocError>
        requires numbers { length self.old.next.items + 1 < 2 ^ 32 }
        requires input { CanRead (length self.old.next.items) input }
        requires links { AreLinks 65535 self.old.next.items }
        ensures number { IfOk result (λ number. HasNumber (source_of input) self.old.next.items self.new.next.items number) }
        ensures rows { OnOk result (KeepsRows self.old self.new) }
    {
        let place = place_of(self.next.as_slice(), input.wire.0, input.delay as u16);
        if place.later == 0 {
            return Ok(place.number);
        }
        self.insert_copy(place)
    }

    /// Adds a copy at a place that has none.
    fn insert_copy(&mut self, place: CopyPlace) -> Result<u32, AllocError>
        requires numbers { length self.old.next.items + 1 < 2 ^ 32 }
        requires within { place.number < length self.old.next.items }
        requires room { HasRoom self.old.next.items place.number place.later }
        ensures number { IfOk result (λ number. number ≡ length self.old.next.items) }
        ensures next { OnOk result (self.new.next.items ≡ inserted self.old.next.items place.number place.later) }
        ensures rows { OnOk result (KeepsRows self.old self.new) }
    {
        let CopyPlace { number, later } = place;
        let copy = self.next.len() as u32;
        let following = port_at(self.next.as_slice(), number);
        self.add_number(behind(following, later))?;
        self.next[number as usize] = OutputPort {
            wire: Some(copy),
            delay: later,
        };
        Ok(copy)
    }

    /// Adds a number that no input reads, with what is next later.
    fn add_number(&mut self, port: OutputPort) -> Result<(), AllocError>
        ensures next { OnOk result (self.new.next.items ≡ self.old.next.items ++ port ∷ []) }
        ensures rows { OnOk result (self.new.rows.items ≡ self.old.rows.items ++ [] ∷ []) }
        ensures wires { OnOk result (self.new.wires.items ≡ self.old.wires.items) }
    {
        self.rows.push(FanoutRow::new(*self.rows.allocator()))?;
        self.next.push(port)?;
        Ok(())
    }
}

/// Lists the wire of a number, if the number is the next one.
fn note_wire(number: u32, wire: u32, wires: &mut Vec<u32>) -> Result<(), AllocError>
    ensures { OnOk result (wires.new.items ≡ noted number wire wires.old.items) }
{
    if number as usize == wires.len() {
        wires.push(wire)?;
    }
    Ok(())
}

/// The place of the copy of a wire with this delay, whether it exists or not.
fn place_of(next: &[OutputPort], wire: u32, delay: u16) -> CopyPlace
    requires within { wire < length next.now }
    requires links { AreLinks 65535 next.now }
    ensures { IsPlace next.now wire delay result }
{
    let mut number = wire;
    let mut later = delay;
    while let Some(copy) = copy_within(port_at(next, number), later) {
        later -= port_at(next, number).delay;
        number = copy;
    }
    CopyPlace { number, later }
}

/// What is next after a number.
fn port_at(next: &[OutputPort], number: u32) -> OutputPort
    requires { number < length next.now }
    ensures { result ≡ copy_at next.now number }
{
    next[number as usize]
}

/// The next copy, if it isn't later than so much.
fn copy_within(port: OutputPort, later: u16) -> Option<u32>
    ensures { result ≡ copy_within port later }
{
    if port.delay <= later { port.wire } else { None }
}

/// The link from a new copy to this one, which is later by `later`.
fn behind(port: OutputPort, later: u16) -> OutputPort
    requires { (x : ℕ) → port.wire ≡ Some x → later < port.delay }
    ensures { result ≡ behind port later }
{
    match port.wire {
        Some(copy) => OutputPort {
            wire: Some(copy),
            delay: port.delay - later,
        },
        None => port,
    }
}
