//! The block of a value change dump that gives the first levels.
ghost use Rattle.std.specs.Prelude.{◌++◌};
ghost use Rattle.mp_streams.specs.InitialBlocks.{block_start, block_end};

use crate::failed::Failed;
use crate::out::Out;
use crate::sink::Sink;
use crate::text::Text;

const BLOCK_START: &str = "$upscope $end\n$enddefinitions $end\n#0\n$dumpvars\n";

const BLOCK_END: &str = "$end\n";

/// What stands in a value change dump behind its declarations: their end, and the levels at time 0 in a block of their own.
#[derive(Drop)]
pub struct InitialBlock<L> {
    pub levels: L,
}

impl<L: Text> Text for InitialBlock<L> {
    ghost text = { λ block. block_start ++ (L.text block.levels ++ block_end) };

    fn put_to<S: Sink>(&self, out: &mut Out<S>) -> Result<(), Failed> {
        (BLOCK_START, &self.levels, BLOCK_END).put_to(out)
    }
}
