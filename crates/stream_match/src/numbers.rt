ghost use Rattle.std.specs.Prelude.{◌≡◌, ◌^◌, ◌<◌, true, length, slice_index};
ghost use Rattle.flow_core_epochs.specs.Epoch.{number_among};
ghost use Rattle.stream_match.specs.EpochCode.{Ascend};

/// The number of an activation among frames, if it is one of them. Where all activations from the first frame to it are frames, its distance
/// from the first one tells; where all from it to the last frame are, that from the last one does; else it is found by halving.
pub(crate) fn number_of(frames: &[u32], activation: u32) -> Option<u32>
    requires ascend { Ascend frames.now }
    requires few { length frames.now < 2 ^ 32 }
    ensures { result ≡ number_among frames.now activation }
{
    let by_first = number_by_first(frames, activation);
    if is_at(frames, by_first, activation) {
        return Some(by_first);
    }
    let by_last = number_by_last(frames, activation);
    if is_at(frames, by_last, activation) {
        return Some(by_last);
    }
    match frames.binary_search(&activation) {
        Ok(number) => Some(number as u32),
        Err(_) => None,
    }
}

/// The number that an activation has where all between the first frame and it are frames.
fn number_by_first(frames: &[u32], activation: u32) -> u32 {
    match frames.first() {
        Some(first) => activation.saturating_sub(*first),
        None => 0,
    }
}

/// The number that an activation has where all between it and the last frame are frames.
fn number_by_last(frames: &[u32], activation: u32) -> u32
    requires few { length frames.now < 2 ^ 32 }
{
    let Some(last) = frames.last() else {
        return 0;
    };
    let behind = last.saturating_sub(activation);
    (frames.len() as u32 - 1).saturating_sub(behind)
}

/// Whether an activation is the frame of a number.
fn is_at(frames: &[u32], number: u32, activation: u32) -> bool
    ensures within { result ≡ true → number < length frames.now }
    ensures at { result ≡ true → slice_index frames.now number ≡ activation }
{
    match frames.get(number as usize) {
        Some(frame) => *frame == activation,
        None => false,
    }
}
