//! Small netlists, whose waves follow from the definitions.

ghost use Rattle.mp_model.specs.Examples.{SelfLoop, CElement, TwoStageControl, LateBuffer};

/// An inverter that reads its own output oscillates, and a buffer after it follows.
pub fn self_loop()
    ensures { SelfLoop }
{}

/// A C-element waits for both its inputs.
pub fn c_element()
    ensures { CElement }
{}

/// The control of a micropipeline of two stages.
pub fn two_stage_control()
    ensures { TwoStageControl }
{}

/// A buffer sees its wire later by the delay of its input.
pub fn late_buffer()
    ensures { LateBuffer }
{}
