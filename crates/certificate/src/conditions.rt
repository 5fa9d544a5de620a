// The two kinds of condition that a certificate puts to a pair of styles.
ghost use Rattle.std.specs.Prelude.{◌≡◌, ◌-◌};
ghost use Rattle.std.specs.Iterator.{at_most};
ghost use Rattle.bit_block.specs.Widths.{live, shared, capacity};
ghost use Rattle.certificate.specs.Runs.{RunFrom};
ghost use Rattle.certificate.specs.Faults.{fault, FaultWalks};

use crate::runs::{Run, next_run};
use bit_block::config::common;
use bitset_interface::LevelMasks;
use ops::{OneOf, Without};

// What is asked of two sources.
#[derive(Clone, Copy, PartialEq, Eq, Debug)]
pub enum Condition {
    // no position of the first lies outside the second
    Inside,
    // the two hold the same positions
    Same,
}

// Whether two sources can be compared: they have one configuration.
pub fn comparable<A: LevelMasks, B: LevelMasks>(a: &A, b: &B) -> bool
    ensures { result ≡ live (A.LevelMasks.means a.now).conf (B.LevelMasks.means b.now).conf }
{
    common(a.config(), b.config()).is_some()
}

// The first run at or above p of positions at which two sources break the condition. The arms have two types, so the
// choice is a match and no closure.
pub fn next_fault<A: LevelMasks, B: LevelMasks>(
    condition: Condition,
    a: &A,
    b: &B,
    p: usize,
) -> Option<Run>
    ensures { RunFrom (fault condition (A.LevelMasks.means a.now) (B.LevelMasks.means b.now)) p result }
{
    match condition {
        Condition::Inside => next_run(&Without::new(a, b), p),
        Condition::Same => next_run(&OneOf::new(a, b), p),
    }
}

// The runs at which two sources break a condition one after another, from where the walk stands.
#[derive(Drop)]
pub struct Faults<A, B> {
    pub condition: Condition,
    pub first: A,
    pub second: B,
    pub at: usize,
}

// Every run at which two sources break a condition, in rising position.
pub fn faults_of<A, B>(condition: Condition, a: A, b: B) -> Faults<A, B>
    ensures condition { result.condition ≡ condition }
    ensures first { result.first ≡ a }
    ensures second { result.second ≡ b }
    ensures at { result.at ≡ 0 }
{
    Faults {
        condition,
        first: a,
        second: b,
        at: 0,
    }
}

impl<A: LevelMasks + Drop, B: LevelMasks + Drop> Iterator for Faults<A, B> {
    type Item = Run;

    ghost next_gives = { FaultWalks A.LevelMasks.means B.LevelMasks.means };

    ghost remaining = { λ s. at_most (capacity (shared (A.LevelMasks.means s.first).conf (B.LevelMasks.means s.second).conf) - s.at) };

    fn next(&mut self) -> Option<Run> {
        let run = next_fault(self.condition, &self.first, &self.second, self.at)?;
        self.at = run.to;
        Some(run)
    }
}
