//! Batches of wires and modules, which are read ahead. In a large netlist each read misses the caches. In a short loop that does nothing but read,
//! the processor fetches many places at a time, and the loop that does the work then finds them in a cache.
ghost use Rattle.std.specs.Prelude.{◌<◌, ◌≤◌, length};

/// From this number of wires or modules on they don't fit into the caches of a processor.
const LARGE: usize = 16_384;

/// The size of a batch that is read ahead.
const BATCH: usize = 32;

/// Whether it pays to read ahead, with this number of wires or modules in all.
#[inline(always)]
pub(crate) fn is_large(all: usize) -> bool {
    all >= LARGE
}

/// The end of the batch of a list that begins at a place. If nothing is to be read ahead, the batch is the rest of the list.
#[inline(always)]
pub(crate) fn batch_end(list: &[u32], from: usize, is_large: bool) -> usize
    requires { from < length list.now }
    ensures later { from < result }
    ensures within { result ≤ length list.now }
{
    if is_large && list.len() - from > BATCH {
        from + BATCH
    } else {
        list.len()
    }
}
