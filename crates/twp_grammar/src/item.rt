ghost use Rattle.std.specs.Prelude.{◌≡◌, ℕ, ◌≤◌, ◌<◌, ◌≤◌, [], ◌∷◌, ◌++◌, length, slice_get, OnOk, OnErr};
ghost use Rattle.std.specs.Prelude.{IsTrue, is_ok};

use arrayvec::ArrayVec;
use std::alloc::{AllocError, Global};
use std::marker::Model;
use twp_grid::{Corner, EastWest, NorthSouth, PLACE_DIGITS, Side};

/// A number as it is written, and its place in the text.
#[derive(Clone, Copy, Debug, PartialEq, Eq)]
pub struct Numeral {
    /// Its value, 0 to 9999. Whether the plat has a section or a lot with this number is not
    /// checked here.
    pub value: u16,
    /// The offset of its first digit.
    pub at: u32,
}

/// A step of an aliquot part: a half or a quarter of the land that the steps after it name.
#[derive(Clone, Copy, Debug, PartialEq, Eq)]
pub enum Step {
    /// The half on this side.
    Half(Side),
    /// The quarter in this corner.
    Quarter(Corner),
}

/// The north half is the value in the unused places of `Steps`.
impl Default for Step {
    fn default() -> Step {
        Step::Half(Side::N)
    }
}

/// The number of steps of the smallest part if all are halves, each of which halves a side of the
/// section.
const FINEST_STEPS: usize = 2 * PLACE_DIGITS;

/// The steps of an aliquot part, the smallest first, as they are written: `S1/2NE1/4` is the south
/// half of the northeast quarter. Up to as many as the smallest part has, they need no allocation.
#[derive(Debug, Drop)]
pub struct Steps {
    first: ArrayVec<Step, FINEST_STEPS>,
    more: Vec<Step>,
}

impl Model for Steps {
    ghost use Rattle.std.specs.Prelude.{◌≡◌, ◌<◌, List, [], ◌++◌, length};
    ghost use Rattle.twp_grammar.specs.declared.item.Step.{Step};
    ghost use Rattle.twp_grid.specs.Cuts.{FINEST_CUTS};

    ghost Value = { List Step };

    ghost view = { λ s. s.first.items ++ s.more.items };

    ghost invariant = { λ s. length s.first.items < FINEST_CUTS → s.more.items ≡ [] };
}

impl Steps {
    ghost use Rattle.twp_grid.specs.Cuts.{FINEST_CUTS};

    /// No steps.
    #[inline(always)]
    pub fn none(alloc: Global) -> Steps
        ensures { result ≡ [] }
    {
        Steps {
            first: ArrayVec::new(),
            more: Vec::new(alloc),
        }
    }

    /// The number of steps.
    pub fn len(&self) -> usize
        ensures { result ≡ length self.now }
    {
        self.first.len() + self.more.len()
    }

    /// The first steps, as a slice: all of them, or as many as the smallest part has.
    #[inline]
    #[tactic(auto, using(crate::proofs::StepFacts::in_first, crate::proofs::StepFacts::all_first))]
    pub fn first(&self) -> &[Step]
        ensures within { length result.now ≤ length self.now }
        ensures all { length result.now < FINEST_CUTS → length result.now ≡ length self.now }
        ensures front { (index : ℕ) → index < length result.now
            → slice_get self.now index ≡ slice_get result.now index }
    {
        self.first.as_slice()
    }

    /// The step at an index, counted from the smallest. `None` after the last.
    #[tactic(auto, using(crate::proofs::StepFacts::in_first, crate::proofs::StepFacts::in_more))]
    pub fn get(&self, index: usize) -> Option<Step>
        ensures { result ≡ slice_get self.now index }
    {
        let first = self.first.as_slice();
        if index < first.len() {
            Some(first[index])
        } else {
            self.more.get(index - first.len()).copied()
        }
    }

    /// Adds the step that the last one is a part of. It cannot fail if there are fewer steps than
    /// the smallest part has.
    #[inline(always)]
    #[tactic(auto, using(crate::proofs::StepFacts::push_first, crate::proofs::StepFacts::push_more))]
    pub fn push(&mut self, step: Step) -> Result<(), AllocError>
        ensures added { OnOk result (self.new ≡ self.old ++ step ∷ []) }
        ensures unchanged { OnErr result (self.new ≡ self.old) }
        ensures room { length self.old < FINEST_CUTS → IsTrue (is_ok result) }
    {
        if self.first.len() < FINEST_STEPS {
            self.first.push(step);
            return Ok(());
        }
        self.push_more(step)
    }

    /// Adds a step when there are already as many as the smallest part has.
    #[cold]
    #[inline(never)]
    #[tactic(auto, using(crate::proofs::StepFacts::push_more))]
    fn push_more(&mut self, step: Step) -> Result<(), AllocError>
        requires { FINEST_CUTS ≤ length self.old }
        ensures added { OnOk result (self.new ≡ self.old ++ step ∷ []) }
        ensures unchanged { OnErr result (self.new ≡ self.old) }
    {
        self.more.push(step)?;
        Ok(())
    }
}

/// One of the things that a description names, in order. Places are offsets in the text.
#[derive(Debug, Drop)]
pub enum Item {
    /// The township of the description.
    Heading {
        /// The township's number, 0 to 9999.
        number: u16,
        /// The township's direction from the base line.
        north_south: NorthSouth,
        /// The range's number, 0 to 9999.
        range: u16,
        /// The range's direction from the principal meridian.
        east_west: EastWest,
        /// The place of its `T`.
        at: u32,
    },
    /// The sections from `first` to `last`: whole sections, or the one section that the following
    /// parts belong to.
    Sections {
        /// The first section.
        first: Numeral,
        /// The last section, which may be the first.
        last: Numeral,
        /// Whether no parts follow.
        whole: bool,
    },
    /// The section's lots from `first` to `last`.
    Lots {
        /// The first lot.
        first: Numeral,
        /// The last lot, which may be the first.
        last: Numeral,
    },
    /// An aliquot part of the section.
    Chain {
        /// Its halves and quarters.
        steps: Steps,
        /// The place of its first token.
        at: u32,
    },
    /// The whole section.
    All {
        /// The place of the word.
        at: u32,
    },
}
