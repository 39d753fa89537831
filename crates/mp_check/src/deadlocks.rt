//! Ports that wait for each other for ever.
ghost use Rattle.std.specs.Prelude.{◌≡◌, ◌≤◌, IfOk, All, map, not};
ghost use Rattle.std.specs.List.{list_all, range_with_len};
ghost use Rattle.mp_check.specs.Dead.{port_slots};
ghost use Rattle.mp_check.specs.Deadlocks.{deadlock_from, deadlocks, next_port};

use crate::dead::dead_ports;
use crate::module_end::port_slots;
use crate::rounds::round_beginnings;
use crate::run_end::RunEnd;
use crate::wait::Wait;
use crate::waiting::{WaitingPorts, waiting_ports};
use std::alloc::{AllocError, Global};
use std::marker::Model;

/// A cycle of ports each of which waits for the wire of the next, and the last one for that of the first, which is the least of them.
#[derive(Drop)]
pub struct Deadlock {
    waits: Vec<Wait>,
}

impl Model for Deadlock {
    ghost use Rattle.std.specs.Prelude.{List};
    ghost use Rattle.mp_check.specs.declared.wait.Wait.{Wait};

    ghost Value = { List Wait };

    ghost view = { λ deadlock. deadlock.waits.items };
}

impl Deadlock {
    ghost use Rattle.std.specs.Prelude.{◌≡◌};

    /// What its ports wait for, one entry for each port: the least port first, then along the cycle.
    pub fn waits(&self) -> &[Wait]
        ensures { result.now ≡ self.now }
    {
        self.waits.as_slice()
    }
}

/// All deadlocks, by their first ports.
pub(crate) fn deadlocks(alloc: Global, end: &RunEnd<'_>) -> Result<Vec<Deadlock>, AllocError>
    ensures { IfOk result (λ found. found.items ≡ deadlocks end.now.at.netlist.now) }
{
    let dead = dead_ports(alloc, end)?;
    if are_unmarked(dead.as_slice()) {
        return Ok(Vec::new(alloc));
    }
    let waiting = waiting_ports(alloc, end, dead.as_slice())?;
    if are_unmarked(waiting.as_slice()) {
        return Ok(Vec::new(alloc));
    }
    let ports = WaitingPorts {
        end: *end,
        dead: dead.as_slice(),
        waiting: waiting.as_slice(),
    };
    deadlocks_among(alloc, &ports)
}

/// Whether none of some marks is set.
fn are_unmarked(marks: &[bool]) -> bool
    ensures { result ≡ list_all not marks.now }
{
    for &mark in marks {
        if mark {
            return false;
        }
    }
    true
}

/// The deadlocks among the ports that wait.
fn deadlocks_among(alloc: Global, ports: &WaitingPorts<'_>) -> Result<Vec<Deadlock>, AllocError>
    ensures { IfOk result (λ found. found.items ≡ deadlocks ports.now.end.at.netlist.now) }
{
    // Its contract says that the netlist is well formed.
    let _horizon = ports.end.at.netlist.horizon();
    let next = next_ports(alloc, ports)?;
    let firsts = round_beginnings(alloc, next.as_slice())?;
    let mut found = Vec::new(alloc);
    for &first in &firsts {
        found.push(deadlock_from(alloc, ports, first)?)?;
    }
    Ok(found)
}

/// For each port by number the next one, whose wire it waits for; how many numbers there are if it waits for none.
fn next_ports(alloc: Global, ports: &WaitingPorts<'_>) -> Result<Vec<u32>, AllocError>
    ensures each { IfOk result (λ next. next.items ≡ map (next_port ports.now.end.at.netlist.now) (range_with_len 0 (port_slots ports.now.end.at.netlist.now))) }
    ensures within { IfOk result (λ next. All (λ k. k ≤ port_slots ports.now.end.at.netlist.now) next.items) }
{
    let count = port_slots(&ports.end);
    let mut next = Vec::with_capacity(alloc, count as usize)?;
    for number in 0..count {
        next.push(next_port(ports, number))?;
    }
    Ok(next)
}

/// The port whose wire a port waits for; how many numbers there are if it waits for none.
fn next_port(ports: &WaitingPorts<'_>, number: u32) -> u32
    ensures value { result ≡ next_port ports.now.end.at.netlist.now number }
    ensures within { result ≤ port_slots ports.now.end.at.netlist.now }
{
    match ports.wait_of(number) {
        Some(wait) => wait.next,
        None => port_slots(&ports.end),
    }
}

/// What the ports wait for that come round to a first one.
fn deadlock_from(
    alloc: Global,
    ports: &WaitingPorts<'_>,
    first: u32,
) -> Result<Deadlock, AllocError>
    ensures { IfOk result (λ deadlock. deadlock ≡ deadlock_from ports.now.end.at.netlist.now first) }
{
    let mut waits = Vec::new(alloc);
    let mut next = ports.wait_of(first);
    for _ in 0..port_slots(&ports.end) {
        let Some(wait) = next else {
            return Ok(Deadlock { waits });
        };
        waits.push(wait)?;
        if wait.next == first {
            return Ok(Deadlock { waits });
        }
        next = ports.wait_of(wait.next);
    }
    Ok(Deadlock { waits })
}
