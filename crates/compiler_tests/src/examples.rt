//! The programs of `examples/` and the kernels beside what they mean.

use crate::beside::whole_beside;
use example_texts::{
    ADPCM, BANK, DCT, DELTA, DIVIDE, FIRST, OVERLAP, UNADPCM, UNBANK, UNDCT, UNDELTA, UNWAVELET,
    WAVELET,
};
use kernels::{BROADCAST, INVERT, LIFT, PIPELINE, SMOOTH, UNLIFT};
use std::alloc::Global;
use std::process::Abort;

/// Lengths from none over blocks that aren't whole to several.
const LENGTHS: [u32; 6] = [0, 1, 3, 6, 29, 130];

/// The kernels, and examples of each kind.
const TEXTS: [&str; 19] = [
    INVERT, SMOOTH, LIFT, UNLIFT, PIPELINE, BROADCAST, FIRST, OVERLAP, DIVIDE, ADPCM, UNADPCM,
    WAVELET, UNWAVELET, BANK, UNBANK, DELTA, UNDELTA, DCT, UNDCT,
];

/// A program runs as it means over inputs of each length.
fn lengths_beside(rt: &impl Abort, alloc: Global, text: &str) {
    for input_len in LENGTHS {
        whole_beside(rt, alloc, text, input_len);
    }
}

/// Each of these programs runs as it means over inputs of each length.
fn all_beside(rt: &impl Abort, alloc: Global, texts: &[&str]) {
    for text in texts {
        lengths_beside(rt, alloc, *text);
    }
}

#[test]
fn kernels_and_examples_run_as_they_mean(rt: HostRuntime) {
    all_beside(&rt, rt.alloc(), &TEXTS);
}
