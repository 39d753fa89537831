//! The ports and parameters of kinds.

/// How many ports and parameters a kind has. The first ports have the module's width, as many of the inputs and of the outputs as are wide. The others
/// have width 1.
#[derive(Clone, Copy)]
pub struct Shape {
    pub inputs: usize,
    pub wide_inputs: usize,
    pub outputs: usize,
    pub wide_outputs: usize,
    pub params: usize,
}

impl Shape {
    ghost use Rattle.std.specs.Prelude.{◌≡◌};
    ghost use Rattle.mp_modules.specs.Kinds.{narrow, one_output};

    /// A kind whose ports all have width 1.
    pub(crate) fn narrow(inputs: usize, outputs: usize, params: usize) -> Shape
        ensures { result ≡ narrow inputs outputs params }
    {
        Shape {
            inputs,
            wide_inputs: 0,
            outputs,
            wide_outputs: 0,
            params,
        }
    }

    /// A kind with one output.
    pub(crate) fn one_output(
        inputs: usize,
        wide_inputs: usize,
        wide_outputs: usize,
        params: usize,
    ) -> Shape
        ensures { result ≡ one_output inputs wide_inputs wide_outputs params }
    {
        Shape {
            inputs,
            wide_inputs,
            outputs: 1,
            wide_outputs,
            params,
        }
    }
}
