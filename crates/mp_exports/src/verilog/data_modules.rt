//! The Verilog module of the kind that holds data.
ghost use Rattle.std.specs.Prelude.{◌≡◌};
ghost use Rattle.mp_exports.specs.verilog.DataModules.{reg_text};

#[tactic(auto, unfolding(crate::specs::verilog::DataModules::reg_text))]
/// The module of a REG.
pub(crate) fn reg_text() -> &'static str
    ensures { result.now ≡ reg_text }
{
    "
// REG: cd is c, and pd is p. At first q is INIT.
//   c and p | q
//   equal   | d
//   else    | as it was
module mp_reg #(parameter W = 1, INIT = 0, q_delay = 1, q_initial = 0, cd_delay = 1, cd_initial = 0, pd_delay = 1, pd_initial = 0)
    (input [W-1:0] d, input c, input p, output reg [W-1:0] q, output reg cd, output reg pd);
  reg [W-1:0] now;
  initial begin
    q = q_initial;
    cd = cd_initial;
    pd = pd_initial;
    now = INIT;
    #0 forever begin
      if (c == p) now = d;
      q <= #q_delay now;
      cd <= #cd_delay c;
      pd <= #pd_delay p;
      @(d or c or p) #0;
    end
  end
endmodule
"
}
