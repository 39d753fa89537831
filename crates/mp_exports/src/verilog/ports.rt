//! What the ports and the parameters of each kind are called.
ghost use Rattle.std.specs.Prelude.{◌≡◌};
ghost use Rattle.mp_modules.specs.Kinds.{input_count, output_count, param_count};
ghost use Rattle.mp_exports.specs.verilog.Ports.{pick, pick_of_two, input_name, output_name, param_name};

use mp_modules::{Function, Kind};

/// How many input ports a kind has.
pub(crate) fn input_count(kind: Kind) -> u32
    ensures { result ≡ input_count kind }
{
    kind.inputs() as u32
}

/// How many output ports a kind has.
pub(crate) fn output_count(kind: Kind) -> u32
    ensures { result ≡ output_count kind }
{
    kind.outputs() as u32
}

/// How many parameters a kind has.
pub(crate) fn param_count(kind: Kind) -> u32
    ensures { result ≡ param_count kind }
{
    kind.params() as u32
}

/// The name of an input port.
pub(crate) fn input_name(kind: Kind, port: u32) -> &'static str
    ensures { result.now ≡ input_name kind port }
{
    match kind {
        Kind::Select => pick_of_two(port, "a", "diamond"),
        Kind::Call => pick(port, "r1", "r2", "d", "d"),
        Kind::Arbiter => pick(port, "r1", "r2", "d1", "d2"),
        Kind::Reg => pick(port, "d", "c", "p", "p"),
        Kind::Function(Function::Mux) => pick(port, "a", "b", "s", "s"),
        Kind::C | Kind::Toggle | Kind::Function(_) => pick_of_two(port, "a", "b"),
    }
}

/// The name of an output port.
pub(crate) fn output_name(kind: Kind, port: u32) -> &'static str
    ensures { result.now ≡ output_name kind port }
{
    match kind {
        Kind::Toggle => pick_of_two(port, "dot", "blank"),
        Kind::Select => pick_of_two(port, "true", "false"),
        Kind::Call => pick(port, "r", "d1", "d2", "d2"),
        Kind::Arbiter => pick_of_two(port, "g1", "g2"),
        Kind::Reg => pick(port, "q", "cd", "pd", "pd"),
        Kind::C | Kind::Function(_) => "y",
    }
}

/// The name of a parameter, by its place in a netlist's text.
pub(crate) fn param_name(kind: Kind, place: u32) -> &'static str
    ensures { result.now ≡ param_name kind place }
{
    match kind {
        Kind::C => pick(place, "INIT", "BUBA", "BUBB", "BUBB"),
        Kind::Reg => "INIT",
        Kind::Toggle | Kind::Select | Kind::Call | Kind::Arbiter | Kind::Function(_) => "K",
    }
}

/// The text of this number, from 0 to 3.
fn pick(
    number: u32,
    first: &'static str,
    second: &'static str,
    third: &'static str,
    fourth: &'static str,
) -> &'static str
    ensures { result.now ≡ pick number first.now second.now third.now fourth.now }
{
    match number {
        0 => first,
        1 => second,
        2 => third,
        _ => fourth,
    }
}

/// The text of this number, 0 or 1.
fn pick_of_two(number: u32, first: &'static str, second: &'static str) -> &'static str
    ensures { result.now ≡ pick_of_two number first.now second.now }
{
    if number == 0 { first } else { second }
}
