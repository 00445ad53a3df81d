use crate::fact::Sentence;
use crate::likeness::Likeness;
use os_io::Memory;
use std::alloc::Global;
use std::collections::BTreeMap;

/// How many sentences of each likeness are left to be told.
#[derive(Drop)]
pub(crate) struct Tally {
    counts: BTreeMap<Likeness, u64>,
}

impl Tally {
    ghost use Rattle.std.specs.Prelude.{◌≡◌, ◌+◌, ◌^◌, ◌<◌, if◌then◌else◌, IfOk, OnOk, count_by};
    ghost use Rattle.osview_sentences.specs.Sentences.{is_alike};
    ghost use Rattle.osview_sentences.specs.Tally.{left};
    ghost use Rattle.osview_sentences.specs.declared.fact.Sentence.{Sentence};

    /// A tally without sentences.
    fn new(alloc: Global) -> Tally
        ensures { (s : Sentence) → left result s ≡ 0 }
    {
        Tally {
            counts: BTreeMap::new(alloc),
        }
    }

    /// How many are left that are like a sentence.
    fn left(&self, sentence: Sentence) -> u64
        ensures { result ≡ left self.now sentence }
    {
        self.counts.get(&sentence.likeness()).copied().unwrap_or(0)
    }

    /// Counts one more sentence.
    fn add(&mut self, sentence: Sentence) -> Result<(), Memory>
        requires { left self.old sentence + 1 < 2 ^ 64 }
        ensures { OnOk result ((s : Sentence) → left self.new s
            ≡ (if is_alike s sentence then left self.old s + 1 else left self.old s)) }
    {
        let more = self.left(sentence) + 1;
        self.counts.insert(sentence.likeness(), more)?;
        Ok(())
    }

    /// Counts sentences by their likeness.
    pub(crate) fn of(alloc: Global, all: &[Sentence]) -> Result<Tally, Memory>
        ensures { IfOk result (λ tally. (s : Sentence) → left tally s ≡ count_by (is_alike s) all.now) }
    {
        let mut tally = Tally::new(alloc);
        for sentence in all {
            tally.add(*sentence)?;
        }
        Ok(tally)
    }

    /// Takes all those away that are like a sentence, and says how many they were.
    pub(crate) fn take(&mut self, sentence: Sentence) -> u64
        ensures taken { result ≡ left self.old sentence }
        ensures others { (s : Sentence) → left self.new s ≡ (if is_alike s sentence then 0 else left self.old s) }
    {
        self.counts.remove(&sentence.likeness()).unwrap_or(0)
    }
}
