ghost use Rattle.std.specs.Prelude.{◌≡◌, ◌+◌, ◌<◌, ◌≤◌, ◌⊎◌, length, take, drop, slice_set};
ghost use Rattle.om_frame.specs.Memory.{page_bytes};
ghost use Rattle.om_frame.specs.MemoryLaws.{spliced};
ghost use Rattle.om_frame.specs.Blocks.{memory_of};

/// Writes bytes over as many of a block's, from an offset on.
fn overwrite(block: &mut [u8], offset: usize, bytes: &[u8])
    requires { offset + length bytes.now ≤ length block.old }
    ensures { block.new ≡ spliced offset block.old bytes.now }
{
    block[offset..offset + bytes.len()].copy_from_slice(bytes);
}

/// Writes some bytes of a block over as many others of it.
fn copy_inside(block: &mut [u8], from: usize, to: usize, len: usize)
    requires source { from + len ≤ length block.old }
    requires target { to + len ≤ length block.old }
    requires apart { (from + len ≤ to) ⊎ (to + len ≤ from) }
    ensures { block.new ≡ spliced to block.old (take len (drop from block.old)) }
{
    if from < to {
        let (low, high) = block.split_at_mut(to);
        overwrite(high, 0, &low[from..from + len]);
        return;
    }
    let (low, high) = block.split_at_mut(from);
    overwrite(low, to, &high[..len]);
}

/// Writes some bytes of the blocks over as many others. The place of bytes is a block's number, and an offset there.
pub(crate) fn copy_bytes(
    blocks: &mut [Vec<u8>],
    from: (usize, usize),
    to: (usize, usize),
    len: usize,
)
    requires source { from.0 < length blocks.old }
    requires target { to.0 < length blocks.old }
    requires source_bytes { from.1 + len ≤ length (page_bytes (memory_of blocks.old) from.0) }
    requires target_bytes { to.1 + len ≤ length (page_bytes (memory_of blocks.old) to.0) }
    requires apart { from.0 ≡ to.0 → (from.1 + len ≤ to.1) ⊎ (to.1 + len ≤ from.1) }
    ensures { let memory = memory_of blocks.old in
        let bytes = take len (drop from.1 (page_bytes memory from.0)) in
        memory_of blocks.new ≡ slice_set memory to.0 (spliced to.1 (page_bytes memory to.0) bytes) }
{
    let (source, from) = from;
    let (target, to) = to;
    if source == target {
        copy_inside(&mut blocks[target], from, to, len);
        return;
    }
    if source < target {
        let (low, high) = blocks.split_at_mut(target);
        overwrite(&mut high[0], to, &low[source][from..from + len]);
        return;
    }
    let (low, high) = blocks.split_at_mut(source);
    overwrite(&mut low[target], to, &high[0][from..from + len]);
}
