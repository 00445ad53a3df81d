use std::alloc::Global;

/// How many bytes the block has where one worker runs the epochs: about what one of them takes at once.
const BLOCK_ALONE: usize = 192 * 1024;

/// How many it has for several workers, whose epochs are larger.
const BLOCK: usize = 8 * 1024 * 1024;

/// Takes a large block of memory, and gives it back without a touch. What an epoch takes is given back after it, and the next one takes
/// as much again: an allocator that learns from a block how much comes and goes keeps so much in place from then on, and no
/// epoch waits for the system to hand out the same pages anew. Where there is no such block, nothing is lost.
pub(crate) fn keep_room_in_place(alloc: Global, workers: u32) {
    let size = if workers == 1 { BLOCK_ALONE } else { BLOCK };
    let mut block: Vec<u8> = Vec::new(alloc);
    let _taken = block.reserve(size);
}
