//! What a text is to become: its phrases, and what was found of how they go together.

use std::alloc::Global;
use twp_asides::plus;
use twp_draft::{Draft, LeftOut, Phrase, PhraseKind};

/// The phrases of a text, which are arranged.
#[derive(Drop)]
pub struct Plan<'a> {
    pub draft: Draft<'a>,
    /// How many phrases there are of each kind.
    pub(crate) counts: Counts,
    /// Whether an acreage that the text states is exactly that of all land before it.
    pub has_exact_acreage: bool,
    /// The last acreage that the text states, in hundredths of an acre.
    pub acreage: Option<u64>,
}

/// How many phrases of some kinds a text has. They are counted once, since most questions are about
/// phrases that most texts don't have, or have only once.
#[derive(Clone, Copy)]
pub(crate) struct Counts {
    pub(crate) headings: usize,
    pub(crate) sections: usize,
    /// Those of them that name several sections.
    pub(crate) lists: usize,
    pub(crate) parts: usize,
    pub(crate) lots: usize,
    pub(crate) exceptions: usize,
    /// What is left out.
    pub(crate) asides: usize,
    pub(crate) labels: usize,
    pub(crate) acreages: usize,
}

impl Counts {
    /// The counts before any phrase was counted.
    fn none() -> Counts {
        Counts {
            headings: 0,
            sections: 0,
            lists: 0,
            parts: 0,
            lots: 0,
            exceptions: 0,
            asides: 0,
            labels: 0,
            acreages: 0,
        }
    }

    /// Counts a phrase.
    #[inline(always)]
    fn add(&mut self, phrase: &Phrase) {
        match phrase.kind {
            PhraseKind::Heading => self.headings = plus(self.headings, 1),
            PhraseKind::Sections => {
                let is_list = phrase.numbers.end > plus(phrase.numbers.first, 1);
                self.sections = plus(self.sections, 1);
                self.lists = plus(self.lists, usize::from(is_list));
            }
            PhraseKind::Part => self.parts = plus(self.parts, 1),
            PhraseKind::Lots => self.lots = plus(self.lots, 1),
            PhraseKind::All => {}
            PhraseKind::Except => self.exceptions = plus(self.exceptions, 1),
            PhraseKind::Nothing(left_out) => {
                self.asides = plus(self.asides, 1);
                self.labels = plus(self.labels, usize::from(matches!(left_out, LeftOut::Label)));
                self.acreages = plus(
                    self.acreages,
                    usize::from(matches!(left_out, LeftOut::Acreage)),
                );
            }
        }
    }
}

impl<'a> Plan<'a> {
    /// A plan for a text in which nothing was found yet.
    pub fn new(alloc: Global, text: &'a [u8]) -> Plan<'a> {
        Plan {
            draft: Draft::new(alloc, text),
            counts: Counts::none(),
            has_exact_acreage: false,
            acreage: None,
        }
    }

    /// Counts the phrases, which are all found, and doubts them if they aren't sure together.
    pub fn count_phrases(&mut self) {
        self.leave_out_first_all();
        for placed in &self.draft.phrases {
            self.counts.add(&placed.phrase);
        }
        self.doubt_together();
    }
}
