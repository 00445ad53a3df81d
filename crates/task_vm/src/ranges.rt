ghost use Rattle.std.specs.Prelude.{◌≡◌, ℕ, ◌+◌, ◌*◌, ◌<◌, ◌≤◌, length, take, sum_by};
ghost use Rattle.flow_core_laws.specs.Limits.{horizon_limit};
ghost use Rattle.flow_core_laws.specs.declared.claim.Claim.{Claim as TheClaim};
ghost use Rattle.os_ast.specs.Limits.{items_limit};
ghost use Rattle.task_vm.specs.ItemRanges.{ranges_of};

use flow_core_laws::Claim;
use os_ast::ITEMS_LIMIT;

/// Where the window of an item lies: among the outputs, or among the inputs.
#[derive(Clone, Copy, Debug, PartialEq, Eq)]
pub(crate) struct ItemRange {
    pub write: bool,
    /// The index of its first element.
    pub first: u32,
    pub horizon: u32,
}

/// Sets the ranges of the items, in order. Those of items that aren't there stay as they were.
pub(crate) fn set_ranges(claims: &[Claim], ranges: &mut [ItemRange; ITEMS_LIMIT])
    requires few { length claims.now ≤ items_limit }
    requires small { sum_by (λ (claim : TheClaim). claim.horizon) claims.now ≤ items_limit * horizon_limit }
    ensures { take (length claims.now) ranges.new ≡ ranges_of claims.now 0 0 }
{
    let mut inputs: u32 = 0;
    let mut outputs: u32 = 0;
    for (item, claim) in claims.iter().enumerate() {
        let first = if claim.write { outputs } else { inputs };
        ranges[item] = ItemRange {
            write: claim.write,
            first,
            horizon: claim.horizon,
        };
        if claim.write {
            outputs += claim.horizon;
        } else {
            inputs += claim.horizon;
        }
    }
}
