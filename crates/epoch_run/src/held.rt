ghost use Rattle.std.specs.Prelude.{◌≡◌, ◌+◌, ◌^◌, ◌<◌, ◌≤◌, ℕ, [], None, Some, All, List, OnOk, length, map, slice_get, slice_index};
ghost use Rattle.std.specs.List.{flat_map};
ghost use Rattle.flow_core_laws.specs.Outcome.{outcome_at};
ghost use Rattle.flow_core_laws.specs.declared.activation.Activation.{Activation};
ghost use Rattle.flow_core_laws.specs.declared.place.Place.{Place};
ghost use Rattle.flow_core_epochs.specs.Epoch.{carried_over, open_in, output_over, put_over};
ghost use Rattle.stream_match.specs.EpochPlan.{AscendInLayout};
ghost use Rattle.stream_match.specs.Kept.{kept_of};
ghost use Rattle.stream_match.specs.Stretch.{stretch_places};
ghost use Rattle.stream_match.specs.declared.stretch.Stretch.{Stretch};
ghost use Rattle.stream_match_layouts.specs.Layout.{IsLayout, IsLayoutOf};
ghost use Rattle.stream_match_layouts.specs.Spans.{frame_count};

use crate::joining::joined;
use crate::pace::Pace;
use crate::putting::{take_ends, take_output};
use crate::unended::still_open;
use epoch_run_carrying::carry_over;
use flow_core_laws::Ends;
use os_io::{List, Memory};
use std::alloc::Global;
use stream_match::{Kept, Layout, Stretch};

/// What is held between two epochs.
#[derive(Drop)]
pub(crate) struct Held {
    /// How the activations so far ended, and the elements of the output.
    pub ends: Ends,
    /// The activations that have no end yet, ascending.
    pub without_end: List<u32>,
    /// The elements that may still be read.
    pub kept: Vec<Kept>,
    /// How long the bodies of the last epoch were. It decides how the next one is run, and nothing of what it comes to.
    pub pace: Pace,
}

impl Held {
    /// What is held before the first epoch.
    pub(crate) fn nothing(alloc: Global) -> Held
        ensures ends { result.ends.ends ≡ [] }
        ensures output { result.ends.output ≡ [] }
        ensures without_end { result.without_end ≡ [] }
        ensures kept { result.kept.items ≡ [] }
    {
        Held {
            ends: Ends {
                ends: List::new(alloc),
                output: List::new(alloc),
            },
            without_end: List::new(alloc),
            kept: Vec::new(alloc),
            pace: Pace::Unknown,
        }
    }

    /// Takes what the frames of an epoch came to, and keeps what may still be read. The readers are all activations that had no end
    /// before it, and the frames are some of them.
    pub(crate) fn take(
        &mut self,
        alloc: Global,
        layout: &Layout,
        readers: List<u32>,
        frames: &[u32],
        leaves: &[Stretch],
        ends: &Ends,
    ) -> Result<(), Memory>
        requires layout { IsLayout layout.now }
        requires readers { readers ≡ open_in self.old.ends.ends (frame_count layout.now) }
        requires frames { AscendInLayout layout.now frames.now }
        requires are_open { (f a : ℕ) → slice_get frames.now f ≡ Some a → outcome_at self.old.ends.ends a ≡ None }
        requires ends_fit { length ends.now.ends ≡ length frames.now }
        requires values_fit { length ends.now.output ≡ length (flat_map stretch_places leaves.now) }
        requires more { length self.old.ends.ends ≤ frame_count layout.now }
        requires longer { length self.old.ends.output ≤ slice_index layout.now.cursors.writes 1 }
        requires kept_exist { All (λ k. k.stream < length layout.now.writers) self.old.kept.items }
        requires small { All (λ (s : Stretch). s.first + s.count < 2 ^ 64) leaves.now }
        requires places_exist { All (λ (p : Place). p.stream < length layout.now.writers) (flat_map stretch_places leaves.now) }
        ensures ends { OnOk result (self.new.ends.ends
            ≡ put_over self.old.ends.ends frames.now ends.now.ends (frame_count layout.now)) }
        ensures without_end { OnOk result (self.new.without_end ≡ open_in self.new.ends.ends (frame_count layout.now)) }
        ensures output { OnOk result (self.new.ends.output
            ≡ output_over self.old.ends.output (flat_map stretch_places leaves.now) ends.now.output (slice_index layout.now.cursors.writes 1)) }
        ensures kept { OnOk result ((activations : List Activation) → IsLayoutOf layout.now activations
            → map kept_of self.new.kept.items ≡ carried_over activations (open_in self.new.ends.ends (frame_count layout.now))
            (map kept_of self.old.kept.items) (flat_map stretch_places leaves.now) ends.now.output) }
    {
        let leaves = joined(alloc, leaves)?;
        self.take_joined(alloc, layout, readers, frames, leaves.as_slice(), ends)
    }

    /// Takes what they came to by the stretches as they are: each of them is put and carried over by itself.
    fn take_joined(
        &mut self,
        alloc: Global,
        layout: &Layout,
        readers: List<u32>,
        frames: &[u32],
        leaves: &[Stretch],
        ends: &Ends,
    ) -> Result<(), Memory>
        requires layout { IsLayout layout.now }
        requires readers { readers ≡ open_in self.old.ends.ends (frame_count layout.now) }
        requires frames { AscendInLayout layout.now frames.now }
        requires are_open { (f a : ℕ) → slice_get frames.now f ≡ Some a → outcome_at self.old.ends.ends a ≡ None }
        requires ends_fit { length ends.now.ends ≡ length frames.now }
        requires values_fit { length ends.now.output ≡ length (flat_map stretch_places leaves.now) }
        requires more { length self.old.ends.ends ≤ frame_count layout.now }
        requires longer { length self.old.ends.output ≤ slice_index layout.now.cursors.writes 1 }
        requires kept_exist { All (λ k. k.stream < length layout.now.writers) self.old.kept.items }
        requires small { All (λ (s : Stretch). s.first + s.count < 2 ^ 64) leaves.now }
        requires places_exist { All (λ (p : Place). p.stream < length layout.now.writers) (flat_map stretch_places leaves.now) }
        ensures ends { OnOk result (self.new.ends.ends
            ≡ put_over self.old.ends.ends frames.now ends.now.ends (frame_count layout.now)) }
        ensures without_end { OnOk result (self.new.without_end ≡ open_in self.new.ends.ends (frame_count layout.now)) }
        ensures output { OnOk result (self.new.ends.output
            ≡ output_over self.old.ends.output (flat_map stretch_places leaves.now) ends.now.output (slice_index layout.now.cursors.writes 1)) }
        ensures kept { OnOk result ((activations : List Activation) → IsLayoutOf layout.now activations
            → map kept_of self.new.kept.items ≡ carried_over activations (open_in self.new.ends.ends (frame_count layout.now))
            (map kept_of self.old.kept.items) (flat_map stretch_places leaves.now) ends.now.output) }
    {
        take_ends(
            &mut self.ends.ends,
            layout.frames(),
            frames,
            ends.ends.as_slice(),
        )?;
        let positions = layout.cursors.writes.as_slice()[1] as usize;
        take_output(
            &mut self.ends.output,
            positions,
            leaves,
            ends.output.as_slice(),
        )?;
        self.without_end = still_open(alloc, readers, frames, self.ends.ends.as_slice())?;
        carry_over(
            alloc,
            layout,
            self.without_end.as_slice(),
            &mut self.kept,
            leaves,
            ends.output.as_slice(),
        )?;
        Ok(())
    }
}
