use flow_core_laws::Claim;

/// What the control program does to the read cursor of a stream.
#[derive(Clone, Copy, Debug, PartialEq, Eq)]
pub enum Move {
    /// A tick moves it by an amount.
    Tick { stream: u32, amount: u32 },
    /// An activation is created with this claim, whose skip isn't told yet. A write claim leaves the read cursor as it is.
    Take(Claim),
}
