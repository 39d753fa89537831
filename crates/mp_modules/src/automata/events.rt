//! The events of a module's inputs in a unit.
ghost use Rattle.std.specs.Prelude.{◌≡◌, ◌<◌, ◌^◌};

/// The number of sets of inputs that can have events in a unit.
pub(crate) const EVENT_SETS: u16 = 16;

/// Which input ports have an event in a unit.
#[derive(Clone, Copy)]
pub struct Events {
    pub first: bool,
    pub second: bool,
    pub third: bool,
    pub fourth: bool,
}

impl Events {
    ghost use Rattle.std.specs.Prelude.{◌≡◌, ◌<◌};
    ghost use Rattle.mp_modules.specs.declared.automata.events.Events.{Events as AnyEvents};
    ghost use Rattle.mp_modules.specs.automata.Codes.{events_code};

    /// The sum of their bits: 1 for the first input, 2 for the second, 4 for the third and 8 for the fourth.
    pub(crate) fn code(self) -> u8
        ensures value { result ≡ events_code self }
        ensures low { result < 16 }
    {
        u8::from(self.first)
            + u8::from(self.second) * 2
            + u8::from(self.third) * 4
            + u8::from(self.fourth) * 8
    }

    /// The events with this sum of bits.
    pub(crate) fn from_code(code: u16) -> Events
        ensures { (e : AnyEvents) → code ≡ events_code e → result ≡ e }
    {
        Events {
            first: code % 2 == 1,
            second: code / 2 % 2 == 1,
            third: code / 4 % 2 == 1,
            fourth: code / 8 % 2 == 1,
        }
    }
}

/// The bit of an event at an input port: 1 for port 0, and twice as much for each further port.
pub fn event_bit(port: usize) -> u16
    requires { port < 4 }
    ensures { result ≡ 2 ^ port }
{
    match port {
        0 => 1,
        1 => 2,
        2 => 4,
        _ => 8,
    }
}
