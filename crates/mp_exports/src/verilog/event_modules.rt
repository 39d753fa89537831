//! The Verilog modules of the kinds that steer events.
ghost use Rattle.std.specs.Prelude.{◌≡◌};
ghost use Rattle.mp_exports.specs.verilog.EventModules.{c_text, toggle_text, select_text, call_text, arbiter_text};

#[tactic(auto, unfolding(crate::specs::verilog::EventModules::c_text))]
/// The module of a C.
pub(crate) fn c_text() -> &'static str
    ensures { result.now ≡ c_text }
{
    "
// C: an input with a bubble (BUBA, BUBB is 1) counts inverted. At first y is INIT.
//   a  b | y
//   0  0 | 0
//   1  1 | 1
//   else | as it was
module mp_c #(parameter INIT = 0, BUBA = 0, BUBB = 0, y_delay = 1, y_initial = 0)
    (input a, input b, output reg y);
  reg now;
  initial begin
    y = y_initial;
    now = INIT;
    #0 forever begin
      if ((a ^ BUBA) == (b ^ BUBB)) now = a ^ BUBA;
      y <= #y_delay now;
      @(a or b) #0;
    end
  end
endmodule
"
}

#[tactic(auto, unfolding(crate::specs::verilog::EventModules::toggle_text))]
/// The module of a TOGGLE.
pub(crate) fn toggle_text() -> &'static str
    ensures { result.now ≡ toggle_text }
{
    "
// TOGGLE: each event of a changes one output.
//   event           | changes
//   1st, 3rd, 5th.. | dot
//   2nd, 4th, 6th.. | blank
module mp_toggle #(parameter dot_delay = 1, dot_initial = 0, blank_delay = 1, blank_initial = 0)
    (input a, output reg dot, output reg blank);
  reg a_before, dot_now, blank_now, is_even;
  initial begin
    dot = dot_initial;
    blank = blank_initial;
    {dot_now, blank_now, is_even} = 0;
    #0 a_before = a;
    forever begin
      if (a != a_before) begin
        if (is_even) blank_now = !blank_now; else dot_now = !dot_now;
        is_even = !is_even;
      end
      a_before = a;
      dot <= #dot_delay dot_now;
      blank <= #blank_delay blank_now;
      @(a) #0;
    end
  end
endmodule
"
}

#[tactic(auto, unfolding(crate::specs::verilog::EventModules::select_text))]
/// The module of a SELECT.
pub(crate) fn select_text() -> &'static str
    ensures { result.now ≡ select_text }
{
    "
// SELECT: each event of a changes one output.
//   diamond | changes
//   1       | true
//   0       | false
module mp_select #(parameter true_delay = 1, true_initial = 0, false_delay = 1, false_initial = 0)
    (input a, input diamond, output reg true, output reg false);
  reg a_before, true_now, false_now;
  initial begin
    true = true_initial;
    false = false_initial;
    {true_now, false_now} = 0;
    #0 a_before = a;
    forever begin
      if (a != a_before) begin
        if (diamond) true_now = !true_now; else false_now = !false_now;
      end
      a_before = a;
      true <= #true_delay true_now;
      false <= #false_delay false_now;
      @(a) #0;
    end
  end
endmodule
"
}

#[tactic(auto, unfolding(crate::specs::verilog::EventModules::call_text))]
/// The module of a CALL.
pub(crate) fn call_text() -> &'static str
    ensures { result.now ≡ call_text }
{
    "
// CALL: client 1, 2 or none (0) is served. The events of a unit, in this order:
//   event of | served | changes | then served
//   d        | 1      | d1      | 0
//   d        | 2      | d2      | 0
//   r1       | 0      | r       | 1
//   r2       | 0      | r       | 2
module mp_call #(parameter r_delay = 1, r_initial = 0, d1_delay = 1, d1_initial = 0, d2_delay = 1, d2_initial = 0)
    (input r1, input r2, input d, output reg r, output reg d1, output reg d2);
  reg r1_before, r2_before, d_before, r_now, d1_now, d2_now;
  reg [1:0] served;
  initial begin
    r = r_initial;
    d1 = d1_initial;
    d2 = d2_initial;
    {r_now, d1_now, d2_now, served} = 0;
    #0 {r1_before, r2_before, d_before} = {r1, r2, d};
    forever begin
      if (d != d_before) begin
        if (served == 1) d1_now = !d1_now;
        if (served == 2) d2_now = !d2_now;
        served = 0;
      end
      if (r1 != r1_before && served == 0) begin
        r_now = !r_now;
        served = 1;
      end
      if (r2 != r2_before && served == 0) begin
        r_now = !r_now;
        served = 2;
      end
      {r1_before, r2_before, d_before} = {r1, r2, d};
      r <= #r_delay r_now;
      d1 <= #d1_delay d1_now;
      d2 <= #d2_delay d2_now;
      @(r1 or r2 or d) #0;
    end
  end
endmodule
"
}

const ARBITER: &str = "
// ARBITER: port 1, 2 or none (0) owns, and 1, 2 or none waits. The events of a unit, in this order:
//   event of           | if                       | then
//   the owner's d1, d2 |                          | it owns no more; who waits owns, and its g1 or g2 changes
//   r1                 | 1 neither owns nor waits | 1 owns, and g1 changes; or it waits if 2 owns
//   r2                 | 2 neither owns nor waits | 2 owns, and g2 changes; or it waits if 1 owns
module mp_arbiter #(parameter g1_delay = 1, g1_initial = 0, g2_delay = 1, g2_initial = 0)
    (input r1, input r2, input d1, input d2, output reg g1, output reg g2);
  reg r1_before, r2_before, d1_before, d2_before, g1_now, g2_now;
  reg [1:0] owner, waiting;
  initial begin
    g1 = g1_initial;
    g2 = g2_initial;
    {g1_now, g2_now, owner, waiting} = 0;
    #0 {r1_before, r2_before, d1_before, d2_before} = {r1, r2, d1, d2};
    forever begin
      if (owner == 1 && d1 != d1_before || owner == 2 && d2 != d2_before) begin
        owner = waiting;
        waiting = 0;
        if (owner == 1) g1_now = !g1_now;
        if (owner == 2) g2_now = !g2_now;
      end
      if (r1 != r1_before && owner != 1 && waiting != 1) begin
        if (owner == 2) waiting = 1;
        else begin
          owner = 1;
          g1_now = !g1_now;
        end
      end
      if (r2 != r2_before && owner != 2 && waiting != 2) begin
        if (owner == 1) waiting = 2;
        else begin
          owner = 2;
          g2_now = !g2_now;
        end
      end
      {r1_before, r2_before, d1_before, d2_before} = {r1, r2, d1, d2};
      g1 <= #g1_delay g1_now;
      g2 <= #g2_delay g2_now;
      @(r1 or r2 or d1 or d2) #0;
    end
  end
endmodule
";

#[tactic(auto, unfolding(crate::specs::verilog::EventModules::arbiter_text))]
/// The module of a ARBITER.
pub(crate) fn arbiter_text() -> &'static str
    ensures { result.now ≡ arbiter_text }
{
    ARBITER
}
