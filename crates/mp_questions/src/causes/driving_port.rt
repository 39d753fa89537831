//! The port that drives a wire.
ghost use Rattle.std.specs.Prelude.{◌≡◌, ◌<◌, option_map, IfSome};
ghost use Rattle.mp_netlist.specs.Circuit.{IsModule, module_at};
ghost use Rattle.mp_records.specs.Outputs.{delay_of};
ghost use Rattle.mp_questions.specs.causes.Causes.{port_by, port_seen};

use mp_netlist::{Driver, ModuleId, ModuleRecord, Netlist};

/// The port that drives a wire: its module, and its delay.
#[derive(Clone, Copy)]
pub(crate) struct DrivingPort<'a> {
    pub(crate) id: ModuleId,
    pub(crate) part: &'a ModuleRecord,
    pub(crate) delay: u32,
}

/// The port that is a wire's driver, if the driver is a port.
pub(crate) fn driving_port<'a>(netlist: &'a Netlist, driver: Driver) -> Option<DrivingPort<'a>>
    ensures value { option_map port_seen result ≡ port_by netlist.now driver }
    ensures form { IfSome result (λ port. IsModule netlist.now port.part.now) }
{
    match driver {
        Driver::Port(id, number) => match netlist.module(id) {
            Some(part) => Some(DrivingPort {
                id,
                part,
                delay: delay_of(part, number),
            }),
            None => None,
        },
        Driver::Nothing | Driver::Stimulus => None,
    }
}

/// The delay of an output port: 1, as the least, if there is no such port.
fn delay_of(part: &ModuleRecord, port: u32) -> u32
    ensures { result ≡ delay_of part.now port }
{
    match part.outputs.as_slice().get(port as usize) {
        Some(output) => output.delay,
        None => 1,
    }
}
