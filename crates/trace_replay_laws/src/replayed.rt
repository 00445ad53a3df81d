use flow_core_laws::Ends;

/// What lists of frames come to over a plan. The answers are tried in the order in which they stand here from the last one
/// on: a number without a frame comes before a repeat, and so on.
#[derive(Debug, Drop)]
pub enum Replayed {
    /// The frames ran in a lawful order, and nothing more can run: what the run came to.
    Whole(Ends),
    /// The frames ran in a lawful order, and this frame could run behind them, the least such frame.
    Short { frame: u32 },
    /// No order of the lists is lawful. Where no head of a list can run any more, this list is the first that isn't used up,
    /// with its head and the first cell of that frame that holds nothing, by its number in the plan.
    Stuck { list: u32, frame: u32, cell: u32 },
    /// A frame stands twice in all lists put together: the first that stood before.
    Repeat { frame: u32 },
    /// A list names a number that no frame has: the first one, by its list and then by its place there, both from 0 on.
    Stranger { list: u32, place: u32 },
}
