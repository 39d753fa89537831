//! The Verilog modules of the kinds that hold nothing.
ghost use Rattle.std.specs.Prelude.{◌≡◌};
ghost use Rattle.mp_exports.specs.verilog.FunctionModules.{function_module, rule, value, params, ports, heard};

use mp_modules::Function;
use mp_streams::{Failed, Out, Sink, Text};

const BEGIN: &str = "  initial begin\n    y = y_initial;\n    #0 forever begin\n";

const END: &str = ") #0;\n    end\n  end\nendmodule\n";

/// The Verilog module of a function.
#[derive(Clone, Copy)]
pub(crate) struct FunctionText {
    pub(crate) function: Function,
}

impl Text for FunctionText {
    ghost use Rattle.mp_exports.specs.verilog.FunctionModules.{function_text};

    ghost text = { λ text. function_text text.function };

    fn put_to<S: Sink>(&self, out: &mut Out<S>) -> Result<(), Failed> {
        let function = self.function;
        let answer = (value(function), ";\n      @(", heard(function), END);
        let body = (";\n", BEGIN, "      y <= #y_delay ", answer);
        let head = (
            params(function),
            "y_delay = 1, y_initial = 0)",
            ports(function),
            body,
        );
        let named = (function_module(function), " #(parameter ", head);
        let says = (rule(function), ".\nmodule ", named);
        ("\n// ", function.word(), ": y is ", says).put_to(out)
    }
}

/// What the module of a function is called.
pub(crate) fn function_module(function: Function) -> &'static str
    ensures { result.now ≡ function_module function }
{
    match function {
        Function::Buf => "mp_buf",
        Function::Not => "mp_not",
        Function::Xor => "mp_xor",
        Function::AddC => "mp_addc",
        Function::XorC => "mp_xorc",
        Function::Sum => "mp_sum",
        Function::Bit => "mp_bit",
        Function::And => "mp_and",
        Function::Or => "mp_or",
        Function::Sub => "mp_sub",
        Function::Less => "mp_less",
        Function::Mux => "mp_mux",
        Function::Join => "mp_join",
    }
}

/// What it gives, in words.
fn rule(function: Function) -> &'static str
    ensures { result.now ≡ rule function }
{
    match function {
        Function::Buf => "a",
        Function::Not => "1 - a",
        Function::Xor => "1 if a and b differ, and else 0",
        Function::AddC => "a + K modulo 2 to the power W",
        Function::XorC => "a ^ K",
        Function::Sum => "a + b modulo 2 to the power W",
        Function::Bit => "bit K of a, bit 0 being the least",
        Function::And => "a & b",
        Function::Or => "a | b",
        Function::Sub => "a - b modulo 2 to the power W",
        Function::Less => "1 if a is less than b, and else 0",
        Function::Mux => "a if s is 0, and b if s is 1",
        Function::Join => "2 a + b",
    }
}

/// What it gives, as an expression.
fn value(function: Function) -> &'static str
    ensures { result.now ≡ value function }
{
    match function {
        Function::Buf => "a",
        Function::Not => "!a",
        Function::Xor => "a ^ b",
        Function::AddC => "a + K",
        Function::XorC => "a ^ K",
        Function::Sum => "a + b",
        Function::Bit => "a[K]",
        Function::And => "a & b",
        Function::Or => "a | b",
        Function::Sub => "a - b",
        Function::Less => "a < b",
        Function::Mux => "s ? b : a",
        Function::Join => "{a, b}",
    }
}

/// Its own parameters.
fn params(function: Function) -> &'static str
    ensures { result.now ≡ params function }
{
    match function {
        Function::Not | Function::Xor => "",
        Function::AddC | Function::XorC | Function::Bit => "W = 1, K = 0, ",
        Function::Join => "W = 2, ",
        _ => "W = 1, ",
    }
}

/// Its ports. A JOIN is as wide as its output.
fn ports(function: Function) -> &'static str
    ensures { result.now ≡ ports function }
{
    match function {
        Function::Buf | Function::AddC | Function::XorC =>
            "\n    (input [W-1:0] a, output reg [W-1:0] y)",
        Function::Not => " (input a, output reg y)",
        Function::Xor => " (input a, input b, output reg y)",
        Function::Bit => " (input [W-1:0] a, output reg y)",
        Function::Sum | Function::And | Function::Or | Function::Sub =>
            "\n    (input [W-1:0] a, input [W-1:0] b, output reg [W-1:0] y)",
        Function::Less => "\n    (input [W-1:0] a, input [W-1:0] b, output reg y)",
        Function::Mux => "\n    (input [W-1:0] a, input [W-1:0] b, input s, output reg [W-1:0] y)",
        Function::Join => "\n    (input [W-2:0] a, input b, output reg [W-1:0] y)",
    }
}

/// The inputs whose events it answers.
fn heard(function: Function) -> &'static str
    ensures { result.now ≡ heard function }
{
    match function {
        Function::Buf | Function::Not | Function::AddC | Function::XorC | Function::Bit => "a",
        Function::Mux => "a or b or s",
        _ => "a or b",
    }
}
