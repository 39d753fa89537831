//! Since when the levels of a module are what they are.
ghost use Rattle.std.specs.Prelude.{◌≡◌};
ghost use Rattle.mp_questions.specs.timing.Hearing.{marked, bit};

use mp_modules::Memory;

/// The times of the last events up to a time, 0 if there was none: of the outputs before their delays, and of whether each client waits.
#[derive(Clone, Copy)]
pub struct Marks {
    pub first_output: u32,
    pub second_output: u32,
    pub third_output: u32,
    pub first_waiting: u32,
    pub second_waiting: u32,
}

impl Marks {
    ghost use Rattle.std.specs.Prelude.{◌≡◌};
    ghost use Rattle.mp_modules.specs.Memories.{output_of};
    ghost use Rattle.mp_questions.specs.timing.Hearing.{no_marks, marked, bit};

    /// The marks at time 0.
    pub(crate) fn none() -> Marks
        ensures { result ≡ no_marks }
    {
        Marks {
            first_output: 0,
            second_output: 0,
            third_output: 0,
            first_waiting: 0,
            second_waiting: 0,
        }
    }

    /// The marks at a time, from those a unit before, by the states of both.
    pub(crate) fn moved(self, time: u32, before: &Memory, now: &Memory) -> Marks
        ensures first_output { result.first_output ≡ marked self.first_output time (output_of before.now 0) (output_of now.now 0) }
        ensures second_output { result.second_output ≡ marked self.second_output time (output_of before.now 1) (output_of now.now 1) }
        ensures third_output { result.third_output ≡ marked self.third_output time (output_of before.now 2) (output_of now.now 2) }
        ensures first_waiting { result.first_waiting ≡ marked self.first_waiting time (bit before.now.waiting.first) (bit now.now.waiting.first) }
        ensures second_waiting { result.second_waiting ≡ marked self.second_waiting time (bit before.now.waiting.second) (bit now.now.waiting.second) }
    {
        let first = (bit(before.waiting.first), bit(now.waiting.first));
        let second = (bit(before.waiting.second), bit(now.waiting.second));
        Marks {
            first_output: marked(self.first_output, time, before.output(0), now.output(0)),
            second_output: marked(self.second_output, time, before.output(1), now.output(1)),
            third_output: marked(self.third_output, time, before.output(2), now.output(2)),
            first_waiting: marked(self.first_waiting, time, first.0, first.1),
            second_waiting: marked(self.second_waiting, time, second.0, second.1),
        }
    }
}

fn marked(since: u32, time: u32, before: u64, now: u64) -> u32
    ensures { result ≡ marked since time before now }
{
    if before == now { since } else { time }
}

fn bit(is: bool) -> u64
    ensures { result ≡ bit is }
{
    if is { 1 } else { 0 }
}
