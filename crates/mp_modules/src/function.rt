//! The kinds that hold nothing.
ghost use Rattle.std.specs.Prelude.{◌≡◌};

use crate::level::fits_width;
use crate::shape::Shape;

/// A kind of module that holds nothing: what it gives is a function of the levels at its inputs. XOR is also the merge of two events (Sutherland 1989).
#[derive(Clone, Copy, PartialEq, Eq)]
pub enum Function {
    /// The input.
    Buf,
    /// The other level.
    Not,
    /// 1 if the two inputs differ.
    Xor,
    /// The input and a constant, added.
    AddC,
    /// The input, with the bits inverted that are 1 in a constant.
    XorC,
    /// The two inputs, added.
    Sum,
    /// The bit of the input at a place; the least significant bit has the place 0.
    Bit,
    /// The bits that are 1 in both inputs.
    And,
    /// The bits that are 1 in an input.
    Or,
    /// The first input less the second.
    Sub,
    /// 1 if the first input is less than the second.
    Less,
    /// The first or the second input, as the third is 0 or 1.
    Mux,
    /// The first input, and the second as one more bit below it.
    Join,
}

impl Function {
    ghost use Rattle.std.specs.Prelude.{◌≡◌, nat_lt};
    ghost use Rattle.mp_modules.specs.Kinds.{function_shape, function_word, function_named, function_bound};

    /// Its name in texts.
    pub fn word(self) -> &'static str
        ensures { result.now ≡ function_word self }
    {
        match self {
            Function::Buf => "BUF",
            Function::Not => "NOT",
            Function::Xor => "XOR",
            Function::AddC => "ADDC",
            Function::XorC => "XORC",
            Function::Sum => "SUM",
            Function::Bit => "BIT",
            Function::And => "AND",
            Function::Or => "OR",
            Function::Sub => "SUB",
            Function::Less => "LESS",
            Function::Mux => "MUX",
            Function::Join => "JOIN",
        }
    }

    /// The function that has this name in texts; `None` for any other word.
    pub fn from_word(word: &[u8]) -> Option<Function>
        ensures { result ≡ function_named word.now }
    {
        if word == b"BUF".as_slice() {
            Some(Function::Buf)
        } else if word == b"NOT".as_slice() {
            Some(Function::Not)
        } else if word == b"XOR".as_slice() {
            Some(Function::Xor)
        } else if word == b"ADDC".as_slice() {
            Some(Function::AddC)
        } else if word == b"XORC".as_slice() {
            Some(Function::XorC)
        } else if word == b"SUM".as_slice() {
            Some(Function::Sum)
        } else if word == b"BIT".as_slice() {
            Some(Function::Bit)
        } else {
            later_function(word)
        }
    }

    /// Its ports and parameters.
    pub fn shape(self) -> Shape
        ensures { result ≡ function_shape self }
    {
        match self {
            Function::Buf => Shape::one_output(1, 1, 1, 0),
            Function::Not => Shape::one_output(1, 0, 0, 0),
            Function::Xor => Shape::one_output(2, 0, 0, 0),
            Function::AddC | Function::XorC => Shape::one_output(1, 1, 1, 1),
            Function::Bit => Shape::one_output(1, 1, 0, 1),
            Function::Sum | Function::And | Function::Or | Function::Sub => {
                Shape::one_output(2, 2, 1, 0)
            }
            Function::Less => Shape::one_output(2, 2, 0, 0),
            Function::Mux => Shape::one_output(3, 2, 1, 0),
            Function::Join => Shape::one_output(2, 1, 1, 0),
        }
    }

    #[tactic(auto, unfolding(crate::specs::Levels::fits_width))]
    /// Whether the number is below the bound of its parameter, in a module of this width.
    pub fn is_in_range(self, width: u32, param: u64) -> bool
        ensures { result ≡ nat_lt param (function_bound self width) }
    {
        match self {
            Function::AddC | Function::XorC => fits_width(param, u64::from(width)),
            Function::Bit => param < u64::from(width),
            _ => false,
        }
    }
}

ghost use Rattle.mp_modules.specs.Kinds.{later_function_named};

/// The function beyond the first seven that has this name in texts; `None` for any other word.
fn later_function(word: &[u8]) -> Option<Function>
    ensures { result ≡ later_function_named word.now }
{
    if word == b"AND".as_slice() {
        Some(Function::And)
    } else if word == b"OR".as_slice() {
        Some(Function::Or)
    } else if word == b"SUB".as_slice() {
        Some(Function::Sub)
    } else if word == b"LESS".as_slice() {
        Some(Function::Less)
    } else if word == b"MUX".as_slice() {
        Some(Function::Mux)
    } else if word == b"JOIN".as_slice() {
        Some(Function::Join)
    } else {
        None
    }
}
