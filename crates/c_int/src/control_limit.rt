ghost use Rattle.std.specs.Prelude.{◌≡◌, IfSome, Some};
ghost use Rattle.c_int.specs.ControlLimits.{limit_code};

/// A limit that ends the control program where a further activation would pass it.
#[derive(Clone, Copy, Debug, PartialEq, Eq)]
pub enum ControlLimit {
    /// There are 65,536 activations.
    Activations,
    /// The windows of the activations would have more than 4,194,304 elements together.
    Elements,
}

impl ControlLimit {
    /// The code that a report shows: 1 or 2.
    pub fn code(self) -> u8
        ensures { result ≡ limit_code self }
    {
        match self {
            ControlLimit::Activations => 1,
            ControlLimit::Elements => 2,
        }
    }

    /// The limit with a code; none where no limit has it.
    pub fn of_code(code: u8) -> Option<ControlLimit>
        ensures has_it { IfSome result (λ limit. limit_code limit ≡ code) }
        ensures finds_it { (limit : ControlLimit) → limit_code limit ≡ code → result ≡ Some limit }
    {
        match code {
            1 => Some(ControlLimit::Activations),
            2 => Some(ControlLimit::Elements),
            _ => None,
        }
    }
}
