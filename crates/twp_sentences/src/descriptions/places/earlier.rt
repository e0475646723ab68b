//! Where the land of an item was named before.
ghost use Rattle.std.specs.Prelude.{◌≡◌, None, IfOk, MatchOption, slice_get};
ghost use Rattle.twp_grid.specs.Lands.{lotting};
ghost use Rattle.twp_sentences.specs.OtherPlaces.{IsEarlierPlace, IsSpanInFile, IsSpanOfItem};

use crate::descriptions::places::Described;
use crate::descriptions::places::items::{bytes_of, item_span};
use crate::descriptions::places::words::write_land;
use std::alloc::{AllocError, Global};
use twp_diagnose::{OtherPlace, shared_land_text, spot_in, write_quoted};
use twp_excerpt::Span;
use twp_land::Lotting;

/// What was named before: what is said of it, and where it is.
#[derive(Drop)]
pub(crate) struct EarlierItem {
    pub(crate) help: String,
    pub(crate) other: Option<OtherPlace>,
}

impl<P: Lotting> Described<'_, P> {
    /// What was named before, and where, if the description is refused for an overlap.
    pub(super) fn earlier(&self, alloc: Global) -> Result<EarlierItem, AllocError>
        ensures { IfOk result (λ earlier. IsEarlierPlace (lotting (P.layout self.now.lots.now))
            self.now.origin.now self.now.text.now self.now.township self.now.description.now
            earlier.other) }
    {
        let mut help = String::new(alloc);
        let Some(shared) = shared_land_text(alloc, self.description, self.township, self.lots)?
        else {
            return Ok(EarlierItem { help, other: None });
        };
        let Some(span) = self.span_of(shared.items.earlier) else {
            return Ok(EarlierItem { help, other: None });
        };
        self.write_earlier(span, &mut help)?;
        write_land(&shared.text, &mut help)?;
        Ok(EarlierItem {
            help,
            other: Some(self.other_place(span)),
        })
    }

    /// The bytes of the item at an index.
    fn span_of(&self, index: usize) -> Option<Span>
        ensures { MatchOption result (slice_get self.now.description.now index ≡ None)
            (IsSpanOfItem self.now.text.now self.now.description.now index) }
    {
        let item = self.description.items().get(index)?;
        Some(item_span(self.text, item))
    }

    /// Where some bytes of the text are in its file.
    fn other_place(&self, span: Span) -> OtherPlace
        ensures { IsSpanInFile self.now.origin.now span result }
    {
        OtherPlace {
            number: 0,
            span: Span {
                start: self.origin.in_file(span.start),
                end: self.origin.in_file(span.end),
            },
        }
    }

    /// Appends an item as it is written, and where it is.
    fn write_earlier(&self, span: Span, out: &mut String) -> Result<(), AllocError> {
        write_quoted(bytes_of(self.text, span), out)?;
        if let Some(spot) = spot_in(&self.origin.file, self.origin.in_file(span.start)) {
            write!(out, " at {}:{}", spot.line, spot.column)?;
        }
        out.push_str(" overlaps it; both include ")
    }
}
