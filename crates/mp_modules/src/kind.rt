//! The kinds of event module.
use crate::function::Function;
use crate::level::fits_width;
use crate::memory::{MOST_INPUTS, MOST_OUTPUTS};
use crate::shape::Shape;

/// A kind of event module (Sutherland 1989). C is the rendezvous of two events; TOGGLE, SELECT, CALL and ARBITER steer events; REG holds data from a
/// capture to a pass; a function holds nothing.
///
/// The width of a module comes from that of the wire at its first input (`width_from`).
#[derive(Clone, Copy, PartialEq, Eq)]
pub enum Kind {
    C,
    Toggle,
    Select,
    Call,
    Arbiter,
    Reg,
    Function(Function),
}

impl Kind {
    ghost use Rattle.std.specs.Prelude.{◌≡◌, ◌≤◌, nat_lt};
    ghost use Rattle.std.specs.List.{list_all};
    ghost use Rattle.mp_modules.specs.Kinds.{all_kinds, shape_of, input_count, output_count, param_count, word_of, kind_named, is_function, has_width, width_from, wide_input_width, input_width, output_width, param_bound, are_params};

    /// All kinds: the first thirteen, and then those that only larger texts have.
    pub fn all() -> &'static [Kind]
        ensures { result.now ≡ all_kinds }
    {
        &[
            Kind::Function(Function::Buf),
            Kind::Function(Function::Not),
            Kind::Function(Function::Xor),
            Kind::C,
            Kind::Toggle,
            Kind::Select,
            Kind::Call,
            Kind::Arbiter,
            Kind::Reg,
            Kind::Function(Function::AddC),
            Kind::Function(Function::XorC),
            Kind::Function(Function::Sum),
            Kind::Function(Function::Bit),
            Kind::Function(Function::And),
            Kind::Function(Function::Or),
            Kind::Function(Function::Sub),
            Kind::Function(Function::Less),
            Kind::Function(Function::Mux),
            Kind::Function(Function::Join),
        ]
    }

    fn shape(self) -> Shape
        ensures { result ≡ shape_of self }
    {
        match self {
            Kind::C => Shape::narrow(2, 1, 3),
            Kind::Toggle => Shape::narrow(1, 2, 0),
            Kind::Select => Shape::narrow(2, 2, 0),
            Kind::Call => Shape::narrow(3, 3, 0),
            Kind::Arbiter => Shape::narrow(4, 2, 0),
            Kind::Reg => Shape {
                inputs: 3,
                wide_inputs: 1,
                outputs: 3,
                wide_outputs: 1,
                params: 1,
            },
            Kind::Function(function) => function.shape(),
        }
    }

    #[tactic(auto, using(crate::proofs::KindLemmas::few_inputs))]
    /// The number of input ports.
    pub fn inputs(self) -> usize
        ensures count { result ≡ input_count self }
        ensures few { result ≤ MOST_INPUTS }
    {
        self.shape().inputs
    }

    #[tactic(auto, using(crate::proofs::KindLemmas::few_outputs))]
    /// The number of output ports.
    pub fn outputs(self) -> usize
        ensures count { result ≡ output_count self }
        ensures few { result ≤ MOST_OUTPUTS }
    {
        self.shape().outputs
    }

    #[tactic(auto, using(crate::proofs::KindLemmas::few_params))]
    /// The number of parameters.
    pub fn params(self) -> usize
        ensures count { result ≡ param_count self }
        ensures few { result ≤ 3 }
    {
        self.shape().params
    }

    /// Its name in texts.
    pub fn word(self) -> &'static str
        ensures { result.now ≡ word_of self }
    {
        match self {
            Kind::C => "C",
            Kind::Toggle => "TOGGLE",
            Kind::Select => "SELECT",
            Kind::Call => "CALL",
            Kind::Arbiter => "ARBITER",
            Kind::Reg => "REG",
            Kind::Function(function) => function.word(),
        }
    }

    #[tactic(auto, unfolding(crate::specs::Kinds::kind_named))]
    /// The kind that has this name in texts; `None` for any other word.
    pub fn from_word(word: &[u8]) -> Option<Kind>
        ensures { result ≡ kind_named word.now }
    {
        if word == b"C".as_slice() {
            Some(Kind::C)
        } else if word == b"TOGGLE".as_slice() {
            Some(Kind::Toggle)
        } else if word == b"SELECT".as_slice() {
            Some(Kind::Select)
        } else if word == b"CALL".as_slice() {
            Some(Kind::Call)
        } else if word == b"ARBITER".as_slice() {
            Some(Kind::Arbiter)
        } else if word == b"REG".as_slice() {
            Some(Kind::Reg)
        } else {
            Some(Kind::Function(Function::from_word(word)?))
        }
    }

    /// Whether it holds nothing: what it gives depends only on the levels at its inputs.
    pub fn is_function(self) -> bool
        ensures { result ≡ is_function self }
    {
        matches!(self, Kind::Function(_))
    }

    /// Whether it has ports of any width.
    pub fn has_width(self) -> bool
        ensures { result ≡ has_width self }
    {
        self.shape().wide_inputs > 0
    }

    /// The width of a module whose first input reads a wire of this width: this one if the kind has ports of any width, and otherwise 1. A JOIN is one
    /// bit wider, as its output is; 0 if no wire is so wide.
    pub fn width_from(self, first: u32) -> u32
        ensures { result ≡ width_from self first }
    {
        match self {
            Kind::Function(Function::Join) if first < 64 => first + 1,
            Kind::Function(Function::Join) => 0,
            _ if self.has_width() => first,
            _ => 1,
        }
    }

    /// The width of an input port of a module of this kind and width.
    pub fn input_width(self, width: u32, port: usize) -> u32
        ensures { result ≡ input_width self width port }
    {
        if port < self.shape().wide_inputs {
            self.wide_input_width(width)
        } else {
            1
        }
    }

    /// The width of the wide inputs of a module of this kind and width.
    fn wide_input_width(self, width: u32) -> u32
        ensures { result ≡ wide_input_width self width }
    {
        match self {
            Kind::Function(Function::Join) => width.saturating_sub(1).max(1),
            _ => width,
        }
    }

    /// The width of an output port of a module of this kind and width.
    pub fn output_width(self, width: u32, port: usize) -> u32
        ensures { result ≡ output_width self width port }
    {
        if port < self.shape().wide_outputs {
            width
        } else {
            1
        }
    }

    #[tactic(auto, unfolding(crate::specs::Kinds::are_params))]
    /// Whether a module of this kind and width can be made from these parameters: as many as the kind has, each in its range.
    pub fn accepts(self, width: u32, params: &[u64]) -> bool
        ensures { result ≡ are_params self width params.now }
    {
        params.len() == self.params() && self.are_in_range(width, params)
    }

    fn are_in_range(self, width: u32, params: &[u64]) -> bool
        ensures { result ≡ list_all (λ param. nat_lt param (param_bound self width)) params.now }
    {
        params.iter().all(|param| self.is_in_range(width, *param))
    }

    #[tactic(auto, unfolding(crate::specs::Levels::fits_width))]
    /// Whether the number is below the bound of the kind's parameters, in a module of this width.
    pub fn is_in_range(self, width: u32, param: u64) -> bool
        ensures { result ≡ nat_lt param (param_bound self width) }
    {
        match self {
            Kind::C => param < 2,
            Kind::Reg => fits_width(param, u64::from(width)),
            Kind::Function(function) => function.is_in_range(width, param),
            Kind::Toggle | Kind::Select | Kind::Call | Kind::Arbiter => false,
        }
    }
}
