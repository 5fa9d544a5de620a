// The maximal runs of positions that a source holds.
ghost use Rattle.std.specs.Prelude.{◌≡◌, ℕ, ◌-◌, ◌<◌, ◌≤◌, Bool, true, false, cond, ◌||◌, length, nat_le};
ghost use Rattle.std.specs.Iterator.{at_most};
ghost use Rattle.bit_block.specs.Ranges.{count};
ghost use Rattle.bit_block.specs.Widths.{capacity};
ghost use Rattle.bitset_interface.specs.Source.{Source, holds};
ghost use Rattle.draft.specs.Drafts.{stored, fitting};
ghost use Rattle.bitset_interface.specs.Refusals.{unless};
ghost use Rattle.draft.specs.Refusals.{refusal, bad_range};
ghost use Rattle.draft.specs.Puts.{own, SameLoan};
ghost use Rattle.certificate.specs.Runs.{RunFrom, Walks, Added};

use crate::complement::Complement;
use bitset_interface::LevelMasks;
use bitset_interface::walk::{capacity_of, next_from};
use draft::{Draft, DraftError};

// The positions from..to, at least one.
#[derive(Clone, Copy, PartialEq, Eq, Debug)]
pub struct Run {
    pub from: usize,
    pub to: usize,
}

// The first run that the source holds at or above p.
pub fn next_run<S: LevelMasks>(s: &S, p: usize) -> Option<Run>
    ensures { RunFrom (holds (S.LevelMasks.means s.now)) p result }
{
    let from = next_from(s, p)?;
    let to = next_from(&Complement(s), from).unwrap_or_else(|| capacity_of(s));
    Some(Run { from, to })
}

// The runs of a source one after another, from where the walk stands.
#[derive(Drop)]
pub struct Runs<S> {
    pub source: S,
    pub at: usize,
}

// Every run of a source, in rising position.
pub fn runs_of<S>(source: S) -> Runs<S>
    ensures source { result.source ≡ source }
    ensures at { result.at ≡ 0 }
{
    Runs { source, at: 0 }
}

impl<S: LevelMasks + Drop> Iterator for Runs<S> {
    type Item = Run;

    ghost next_gives = { Walks S.LevelMasks.means };

    ghost remaining = { λ s. at_most (capacity (S.LevelMasks.means s.source).conf - s.at) };

    fn next(&mut self) -> Option<Run> {
        let run = next_run(&self.source, self.at)?;
        self.at = run.to;
        Some(run)
    }
}

// How many positions the source holds.
pub fn count_held<S: LevelMasks>(s: &S) -> usize
    ensures { result ≡ count (holds (S.LevelMasks.means s.now)) (capacity (S.LevelMasks.means s.now).conf) }
{
    runs_of(s).map(|run| run.to - run.from).sum()
}

// Marks in the draft every position that the source holds; refused, with nothing marked, where the draft has fewer
// positions than the source.
pub fn mark_all<S: LevelMasks>(s: &S, draft: &mut Draft<'_>) -> Result<(), DraftError>
    ensures refused { refusal result ≡ unless (nat_le (capacity (S.LevelMasks.means s.now).conf) (capacity (own draft.old))) bad_range }
    ensures added { Added (S.LevelMasks.means s.now) (capacity (own draft.old)) draft.old.words.now draft.new.words.now }
    ensures loan { SameLoan draft.old draft.new }
{
    if capacity_of(s) > capacity_of(draft) {
        return Err(DraftError::BadRange);
    }
    for run in runs_of(s) {
        draft.mark(run.from, run.to)?;
    }
    Ok(())
}
