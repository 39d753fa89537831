//! The state of an event module.
ghost use Rattle.std.specs.Prelude.{◌≡◌, slice_index};

/// The greatest number of input ports of a kind.
pub const MOST_INPUTS: usize = 4;

/// The greatest number of output ports of a kind.
pub const MOST_OUTPUTS: usize = 3;

/// One of the two clients of a module that serves one at a time, or nobody.
#[derive(Clone, Copy, PartialEq, Eq)]
pub enum Client {
    Nobody,
    First,
    Second,
}

impl Client {
    ghost use Rattle.std.specs.Prelude.{◌≡◌};
    ghost use Rattle.mp_modules.specs.Clients.{is_free, is_same};

    /// Whether nobody is served.
    pub(crate) fn is_free(self) -> bool
        ensures { result ≡ is_free self }
    {
        matches!(self, Client::Nobody)
    }

    pub(crate) fn is_same(self, other: Client) -> bool
        ensures { result ≡ is_same self other }
    {
        match (self, other) {
            (Client::Nobody, Client::Nobody)
            | (Client::First, Client::First)
            | (Client::Second, Client::Second) => true,
            _ => false,
        }
    }
}

/// Which of two clients wait to be served.
#[derive(Clone, Copy, PartialEq, Eq)]
pub struct Waiting {
    pub first: bool,
    pub second: bool,
}

impl Waiting {
    ghost use Rattle.std.specs.Prelude.{◌≡◌};
    ghost use Rattle.mp_modules.specs.Clients.{waits, with_waiting};

    pub(crate) fn has(self, client: Client) -> bool
        ensures { result ≡ waits client self }
    {
        match client {
            Client::Nobody => false,
            Client::First => self.first,
            Client::Second => self.second,
        }
    }

    /// Whether a client waits from now on.
    pub(crate) fn with(mut self, client: Client, waits: bool) -> Self
        ensures { result ≡ with_waiting client waits self }
    {
        match client {
            Client::Nobody => {}
            Client::First => self.first = waits,
            Client::Second => self.second = waits,
        }
        self
    }
}

/// A module's state at a time: its input levels then, its outputs before their delays, and, in a module that serves clients, whom
/// it serves and who waits. The places after the last port hold 0.
#[derive(Clone, Copy, PartialEq, Eq)]
pub struct Memory {
    pub inputs: [u64; MOST_INPUTS],
    pub outputs: [u64; MOST_OUTPUTS],
    pub served: Client,
    pub waiting: Waiting,
}

impl Memory {
    ghost use Rattle.std.specs.Prelude.{◌≡◌, ◌<◌};
    ghost use Rattle.mp_modules.specs.Memories.{with_outputs, with_one_output, output_of, is_event, flipped, seen};
    ghost use Rattle.mp_modules.specs.Clients.{serving};

    /// The state of a module that serves nobody, with these levels at its inputs and outputs.
    pub fn with_outputs(levels: &[u64], outputs: [u64; MOST_OUTPUTS]) -> Self
        ensures { result ≡ with_outputs levels.now outputs }
    {
        Memory {
            inputs: input_levels(levels),
            outputs,
            served: Client::Nobody,
            waiting: Waiting {
                first: false,
                second: false,
            },
        }
    }

    /// The state of a module that serves nobody, with these levels at its inputs and one output.
    pub fn with_one_output(levels: &[u64], output: u64) -> Self
        ensures { result ≡ with_one_output levels.now output }
    {
        Memory::with_outputs(levels, [output, 0, 0])
    }

    /// Becomes the state of a module that serves nobody, with these levels at its inputs and outputs.
    #[inline(always)]
    pub fn set_outputs(&mut self, levels: &[u64], outputs: [u64; MOST_OUTPUTS])
        ensures { self.new ≡ with_outputs levels.now outputs }
    {
        self.inputs = input_levels(levels);
        self.outputs = outputs;
        self.served = Client::Nobody;
        self.waiting.first = false;
        self.waiting.second = false;
    }

    /// Becomes the state of a module that serves nobody, with these levels at its inputs and one output.
    #[inline(always)]
    pub fn set_one_output(&mut self, levels: &[u64], output: u64)
        ensures { self.new ≡ with_one_output levels.now output }
    {
        self.set_outputs(levels, [output, 0, 0]);
    }

    /// The level of an output before its delay, 0 if there is no such port.
    pub fn output(&self, port: usize) -> u64
        ensures { result ≡ output_of self.now port }
    {
        level_at(&self.outputs, port)
    }

    /// Whether an input has an event: its level differs from that of the unit before.
    pub fn is_event(&self, levels: &[u64], port: usize) -> bool
        ensures { result ≡ is_event self.now levels.now port }
    {
        level_at(&self.inputs, port) != level_at(levels, port)
    }

    /// The state with these levels at its inputs.
    pub fn seen(mut self, levels: &[u64]) -> Self
        ensures { result ≡ seen levels.now self }
    {
        self.inputs = input_levels(levels);
        self
    }

    /// The state after an event at an output.
    pub(crate) fn flipped(mut self, port: usize) -> Self
        requires { port < MOST_OUTPUTS }
        ensures { result ≡ flipped port self }
    {
        self.outputs[port] = 1u64.saturating_sub(self.outputs[port]);
        self
    }

    /// The state in which this client is served.
    pub(crate) fn serving(mut self, client: Client) -> Self
        ensures { result ≡ serving client self }
    {
        self.served = client;
        self
    }
}

ghost use Rattle.mp_modules.specs.Memories.{input_levels};

/// The levels at the input ports, and 0 after them.
fn input_levels(levels: &[u64]) -> [u64; MOST_INPUTS]
    ensures { result ≡ input_levels levels.now }
{
    [
        level_at(levels, 0),
        level_at(levels, 1),
        level_at(levels, 2),
        level_at(levels, 3),
    ]
}

/// The level at a port, 0 if there is none.
pub fn level_at(levels: &[u64], port: usize) -> u64
    ensures { result ≡ slice_index levels.now port }
{
    levels.get(port).copied().unwrap_or(0)
}
