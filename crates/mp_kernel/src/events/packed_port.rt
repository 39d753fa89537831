//! An output in eight bytes.

use crate::events::output_port::OutputPort;
use std::marker::Model;

/// An `OutputPort` in eight bytes in place of twelve. Contracts see the `OutputPort`. If it drives no wire, `wire` is 0.
#[derive(Drop)]
pub(crate) struct PackedPort {
    wire: u32,
    delay: u16,
    is_driving: bool,
}

impl Model for PackedPort {
    ghost use Rattle.std.specs.Prelude.{Some, None, if◌then◌else◌};
    ghost use Rattle.mp_kernel.specs.declared.events.output_port.OutputPort.{OutputPort};

    ghost Value = { OutputPort };

    ghost view = { λ port. record { wire = if port.is_driving then Some port.wire else None; delay = port.delay } };
}

impl PackedPort {
    ghost use Rattle.std.specs.Prelude.{◌≡◌};

    /// Packs a port.
    pub(crate) fn of(port: OutputPort) -> PackedPort
        ensures { result ≡ port }
    {
        match port.wire {
            Some(wire) => PackedPort {
                wire,
                delay: port.delay,
                is_driving: true,
            },
            None => PackedPort {
                wire: 0,
                delay: port.delay,
                is_driving: false,
            },
        }
    }

    /// Unpacks the port.
    #[inline(always)]
    pub(crate) fn port(&self) -> OutputPort
        ensures { result ≡ self.now }
    {
        let wire = if self.is_driving {
            Some(self.wire)
        } else {
            None
        };
        OutputPort {
            wire,
            delay: self.delay,
        }
    }
}
