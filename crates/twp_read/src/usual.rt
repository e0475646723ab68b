//! The quick way beside the reader's loop: what is spelled in the usual way is taken as it is,
//! several tokens together.
//!
//! The reader's loop tries it before each token, and continues where it ends. Its one contract is
//! `Leads`: it leads the reader as the tokens that it passes over would, one by one. So no promise
//! speaks of it, and what is spelled in another way is left to the loop. It pays off: fine parts
//! are read in some 9 instructions a byte and lists in 20 to 30, where the loop takes up to 60.
ghost use Rattle.std.specs.Prelude.{◌≤◌, length, IfOk};
ghost use Rattle.twp_grammar.specs.Sentences.{TEXT_LIMIT};
ghost use Rattle.twp_read.specs.steps.Usual.{Leads, MovesOn};

mod chain;
mod heading;
mod list;
mod part;
mod section;

use crate::description::Reached;
use crate::items::Items;
use crate::usual::chain::goes_on;
use crate::usual::part::{after_fraction, after_stop};
use crate::watch::Watch;
use std::alloc::{AllocError, Global};
use twp_grammar::State;

impl Items {
    /// Takes what comes next as `take_usual` does, unless the loop has to watch each token.
    #[inline(always)]
    pub(crate) fn take_watched(
        &mut self,
        alloc: Global,
        text: &[u8],
        from: Reached,
        watch: Watch,
    ) -> Result<Reached, AllocError>
        requires place { from.at ≤ length text.now }
        requires limit { length text.now ≤ TEXT_LIMIT }
        ensures moves { IfOk result (MovesOn watch.word text.now from self.old self.new) }
        ensures forward { IfOk result (λ to. from.at ≤ to.at) }
        ensures within { IfOk result (λ to. to.at ≤ length text.now) }
    {
        if !watch.is_usual() {
            return Ok(from);
        }
        self.take_usual(alloc, text, from)
    }

    /// Takes what comes next, as long as it is spelled in the usual way: as it is, and not
    /// token by token. Gives the place that is reached, and the state there.
    #[inline(always)]
    pub(crate) fn take_usual(
        &mut self,
        alloc: Global,
        text: &[u8],
        from: Reached,
    ) -> Result<Reached, AllocError>
        requires place { from.at ≤ length text.now }
        requires limit { length text.now ≤ TEXT_LIMIT }
        ensures { IfOk result
            (λ to. Leads text.now from.at from.state self.old to.at to.state self.new) }
    {
        let begun = self.take_begun(text, from)?;
        let section = self.take_section(text, begun)?;
        let lots = self.take_lots(text, section)?;
        let list = self.take_list(text, lots)?;
        let parts = self.take_parts(alloc, text, list)?;
        Ok(after_stop(text, parts))
    }

    /// Takes a heading, or the fraction of a step whose letters were taken.
    #[inline(always)]
    fn take_begun(&mut self, text: &[u8], from: Reached) -> Result<Reached, AllocError>
        requires place { from.at ≤ length text.now }
        requires limit { length text.now ≤ TEXT_LIMIT }
        ensures { IfOk result
            (λ to. Leads text.now from.at from.state self.old to.at to.state self.new) }
    {
        match from.state {
            State::Start if goes_on(text, from.at, b"T. ") => self.take_heading(text, from.at),
            _ => Ok(after_fraction(text, from)),
        }
    }
}
