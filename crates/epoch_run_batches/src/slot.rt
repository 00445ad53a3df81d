ghost use Rattle.std.specs.Prelude.{◌≡◌, IfSome, length};
ghost use Rattle.epoch_run_batches.specs.Meant.{AreEndsMeant, HoldMeant};

use crate::batch_outcome::BatchOutcome;
use std::marker::{Brand, PhantomData};
use std::sync::OnceLock;

/// The run whose batches fill some slots. Who runs batches picks it.
pub trait Meaning {
    ghost use Rattle.epoch_run_batches.specs.Meant.{Run};

    ghost run: { Run };
}

impl Meaning for Brand {
    ghost use Rattle.std.specs.Prelude.{[]};
    ghost use Rattle.flow_core_laws.specs.Outcome.{over_budget};

    ghost run = { record { activations = []; input = []; body = λ number inputs. over_budget } };
}

/// What a slot holds once it is full: what a batch of the run came to, all of it as the run means it.
#[derive(Drop)]
pub struct SlotContent<J: Meaning> {
    pub outcome: BatchOutcome,
    pub of: PhantomData<J>,
    pub ghost as_many: { length outcome.wrote.firsts ≡ length outcome.wrote.elements },
    pub ghost ends_are_meant: { AreEndsMeant J.run outcome.ended },
    pub ghost elements_are_meant: { HoldMeant J.run outcome.wrote },
}

/// Fills a slot, if it is empty.
pub fn fill_slot<J: Meaning>(slot: &OnceLock<SlotContent<J>>, content: SlotContent<J>) {
    let _ = slot.try_set(content);
}

/// What a slot holds, if it is full. It waits for nobody.
pub fn read_slot<J: Meaning>(slot: &OnceLock<SlotContent<J>>) -> Option<&SlotContent<J>>
    ensures as_many { IfSome result (λ c. length c.now.outcome.wrote.firsts ≡ length c.now.outcome.wrote.elements) }
    ensures ends { IfSome result (λ c. AreEndsMeant J.run c.now.outcome.ended) }
    ensures elements { IfSome result (λ c. HoldMeant J.run c.now.outcome.wrote) }
{
    slot.get()
}
