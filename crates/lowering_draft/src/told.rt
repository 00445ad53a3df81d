ghost use Rattle.std.specs.Prelude.{◌≡◌};
ghost use Rattle.lowering_relation.specs.Names.{told_at};
ghost use Rattle.lowering_draft.specs.Ascending.{Ascends};

use os_ast::{Resolved, What};

/// What names mean, in the order of their places.
#[derive(Drop)]
pub struct Told<'a> {
    pub names: &'a [Resolved],
    pub ghost ascends: { Ascends names.now },
}

impl<'a> Told<'a> {
    #[tactic(auto, using(crate::proofs::Placed::told_found, crate::proofs::Placed::told_absent))]
    /// What the name at a place means, and of which type it is, found by halving. A place that no name has is told a constant.
    pub fn at(&self, place: u32) -> Resolved
        ensures { result ≡ told_at self.now.names.now place }
    {
        let names = self.names;
        let mut low = 0;
        let mut high = names.len();
        while low < high {
            let middle = low + (high - low) / 2;
            let name = names[middle];
            if name.place == place {
                return name;
            }
            if name.place < place {
                low = middle + 1;
            } else {
                high = middle;
            }
        }
        Resolved {
            place,
            what: What::Constant(0),
            unsigned: false,
        }
    }
}
