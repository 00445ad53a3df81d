//! Where the windows of an activation lie among its inputs and outputs.

ghost use Rattle.std.specs.Prelude.{◌≡◌, ◌+◌, ◌^◌, ◌<◌};
ghost use Rattle.stream_match_layouts.specs.Offsets.{offset_by, offsets_behind};

use flow_core_laws::Claim;

/// How many inputs and outputs the windows of an activation take so far.
#[derive(Debug, Drop)]
pub struct Offsets {
    pub inputs: u32,
    pub outputs: u32,
}

impl Offsets {
    /// Before the first claim.
    #[inline(always)]
    pub fn new() -> Offsets
        ensures { result ≡ record { inputs = 0; outputs = 0 } }
    {
        Offsets {
            inputs: 0,
            outputs: 0,
        }
    }

    /// The offset of the activation's next claim, whose window is counted then.
    #[inline(always)]
    pub fn next(&mut self, claim: &Claim) -> u32
        requires { offset_by self.old claim.now + claim.now.horizon < 2 ^ 32 }
        ensures offset { result ≡ offset_by self.old claim.now }
        ensures counted { self.new ≡ offsets_behind self.old claim.now }
    {
        if claim.write {
            let offset = self.outputs;
            self.outputs += claim.horizon;
            offset
        } else {
            let offset = self.inputs;
            self.inputs += claim.horizon;
            offset
        }
    }
}
