/// Which way slots are converted.
#[derive(Clone, Copy, Debug)]
pub(crate) enum Way {
    /// From slots to pieces.
    Packing,
    /// From pieces to slots.
    Unpacking,
}
