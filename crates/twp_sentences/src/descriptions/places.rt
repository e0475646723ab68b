//! Why a description names no land on the plat.
ghost use Rattle.std.specs.Prelude.{◌≡◌, None, IfOk, MatchOption};
ghost use Rattle.twp_diagnose.specs.Marks.{IsTokenSpan, IsChainSpan, IsHeadingSpan};
ghost use Rattle.twp_grid.specs.Lands.{lotting};
ghost use Rattle.twp_sentences.specs.OtherPlaces.{IsEarlierPlace, IsOtherPlace};
ghost use Rattle.twp_sentences.specs.ShownPlaces.{BeginsAt};
ghost use Rattle.twp_sentences.specs.Underlined.{EndsLike, EndsWithFault, IsFaultSpan, IsItemAt};
ghost use Rattle.twp_sentences.specs.Underlined.{IsSpanAt, NoneAt};

mod earlier;
mod items;
mod words;

use crate::descriptions::places::earlier::EarlierItem;
use crate::descriptions::places::items::{
    begins_at, item_span, number_at, range_to, section_after, section_of_number,
};
pub use crate::descriptions::places::words::write_land;
pub(crate) use crate::descriptions::places::words::write_lots_of;
use crate::descriptions::places::words::{
    turned_range, write_heading, write_lots_and_rest, write_lots_cut, write_nearest_lots,
    write_no_land, write_township, write_whole_lots,
};
use std::alloc::{AllocError, Global};
use twp_diagnose::{
    Finding, Location, Origin, OtherPlace, PartOfLots, chain_span, heading_span, part_of_lots,
    token_span,
};
use twp_excerpt::Span;
use twp_grammar::Item;
use twp_grid::{Refusal, Section, Township};
use twp_land::Lotting;
use twp_read::Description;
use twp_resolve::PlaceFault;

/// A description that was read from a text, the township that it should be of, and the lots of its plat.
#[derive(Drop)]
struct Described<'a, P: Lotting> {
    origin: &'a Origin<'a>,
    text: &'a [u8],
    description: &'a Description,
    township: Township,
    lots: &'a P,
}

/// The explanation of one fault: where what is underlined of the text ends, which begins at the fault's
/// place; what is wrong with it, and what helps; and where else in the file the same land is named.
#[derive(Drop)]
struct Explained {
    end: usize,
    sentence: String,
    help: String,
    other: Option<OtherPlace>,
}

/// The explanation of a description, read from a text, that has a fault on the plat of a township with these
/// lots.
pub(crate) fn find<P: Lotting>(
    alloc: Global,
    origin: &Origin<'_>,
    text: &[u8],
    description: &Description,
    township: Township,
    lots: &P,
    fault: PlaceFault,
    refusal: Refusal,
) -> Result<Finding, AllocError>
    ensures refusal { IfOk result (λ finding. finding.refusal ≡ refusal) }
    ensures place { IfOk result (λ finding. BeginsAt origin.now refusal.at finding.place) }
    ensures end { IfOk result (λ finding.
        EndsWithFault origin.now text.now description.now fault finding.place) }
    ensures other { IfOk result (λ finding.
        IsOtherPlace (lotting (P.layout lots.now)) origin.now text.now township description.now fault
        finding.other) }
{
    let described = Described {
        origin,
        text,
        description,
        township,
        lots,
    };
    let explained = described.explain(alloc, fault)?;
    let span = Span {
        start: origin.in_file(refusal.at as usize),
        end: origin.in_file(explained.end),
    };
    Ok(Finding {
        refusal,
        place: Location::Part(span),
        sentence: explained.sentence,
        help: explained.help,
        other: explained.other,
        reading: None,
    })
}

impl<'a, P: Lotting> Described<'a, P> {
    /// The explanation of a fault.
    fn explain(&self, alloc: Global, fault: PlaceFault) -> Result<Explained, AllocError>
        ensures span { IfOk result (λ explained.
            EndsLike (IsFaultSpan self.now.text.now self.now.description.now fault) explained.end) }
        ensures other { IfOk result (λ explained. IsOtherPlace (lotting (P.layout self.now.lots.now))
            self.now.origin.now self.now.text.now self.now.township self.now.description.now fault
            explained.other) }
    {
        match fault {
            PlaceFault::OtherTownship { at } => self.explain_heading(alloc, at),
            PlaceFault::NoSection { at } => self.explain_section(alloc, at),
            PlaceFault::Backward { at } => self.explain_range(alloc, at),
            PlaceFault::NoLot { at } => self.explain_lot(alloc, at),
            PlaceFault::TooFine { at } => self.explain_fine_part(alloc, at),
            PlaceFault::OnLot { at } => self.explain_part_of_lots(alloc, at),
            PlaceFault::Overlap { at } => self.explain_overlap(alloc, at),
            PlaceFault::NoLand { at } => self.explain_no_land(alloc, at),
        }
    }

    /// The item that begins at a place.
    fn item_at(&self, at: u32) -> Option<&'a Item>
        ensures { MatchOption result (NoneAt at self.now.description.now)
            (λ item. IsItemAt at self.now.description.now item.now) }
    {
        for item in self.description.items() {
            if begins_at(item, at) {
                return Some(item);
            }
        }
        None
    }

    /// The section of which the item at a place is a part.
    fn section_at(&self, at: u32) -> Option<Section> {
        let mut section = None;
        for item in self.description.items() {
            if begins_at(item, at) {
                break;
            }
            section = section_after(section, item);
        }
        section
    }

    /// A heading of another township.
    fn explain_heading(&self, alloc: Global, at: u32) -> Result<Explained, AllocError>
        ensures span { IfOk result (λ explained.
            EndsLike (IsHeadingSpan self.now.text.now at) explained.end) }
        ensures other { IfOk result (λ explained. explained.other ≡ None) }
    {
        let mut sentence = String::new(alloc);
        sentence.push_str("this heading says ")?;
        if let Some(item) = self.item_at(at) {
            write_heading(item, &mut sentence)?;
        }
        sentence.push_str("; the plat is for ")?;
        write_township(self.township, &mut sentence)?;
        Ok(Explained {
            end: heading_span(self.text, at as usize).end,
            sentence,
            help: String::new(alloc),
            other: None,
        })
    }

    /// A number that is no section's.
    fn explain_section(&self, alloc: Global, at: u32) -> Result<Explained, AllocError>
        ensures span { IfOk result (λ explained. EndsLike (IsTokenSpan self.now.text.now at) explained.end) }
        ensures other { IfOk result (λ explained. explained.other ≡ None) }
    {
        let mut sentence = String::new(alloc);
        let number = number_at(self.description.items(), at).unwrap_or(0);
        write!(
            sentence,
            "there is no section {}: sections are 1 to 36",
            number
        )?;
        Ok(Explained {
            end: token_span(self.text, at as usize).end,
            sentence,
            help: String::new(alloc),
            other: None,
        })
    }

    /// A range whose last number is less than its first.
    fn explain_range(&self, alloc: Global, at: u32) -> Result<Explained, AllocError>
        ensures span { IfOk result (λ explained. EndsLike (IsTokenSpan self.now.text.now at) explained.end) }
        ensures other { IfOk result (λ explained. explained.other ≡ None) }
    {
        let (first, last) = range_to(self.description.items(), at);
        let mut sentence = String::new(alloc);
        write!(
            sentence,
            "this range runs backward: {} is less than {}",
            last, first
        )?;
        Ok(Explained {
            end: token_span(self.text, at as usize).end,
            sentence,
            help: turned_range(alloc, first, last)?,
            other: None,
        })
    }

    /// A number that is no lot's.
    fn explain_lot(&self, alloc: Global, at: u32) -> Result<Explained, AllocError>
        ensures span { IfOk result (λ explained. EndsLike (IsTokenSpan self.now.text.now at) explained.end) }
        ensures other { IfOk result (λ explained. explained.other ≡ None) }
    {
        let mut sentence = String::new(alloc);
        let mut help = String::new(alloc);
        if let Some(section) = section_of_number(self.description.items(), at) {
            write_lots_of(section, self.lots, &mut sentence)?;
            let number = number_at(self.description.items(), at).unwrap_or(0);
            write_nearest_lots(section, number, self.lots, &mut help)?;
        }
        Ok(Explained {
            end: token_span(self.text, at as usize).end,
            sentence,
            help,
            other: None,
        })
    }

    /// An aliquot part that is finer than places are.
    fn explain_fine_part(&self, alloc: Global, at: u32) -> Result<Explained, AllocError>
        ensures span { IfOk result (λ explained. EndsLike (IsChainSpan self.now.text.now at) explained.end) }
        ensures other { IfOk result (λ explained. explained.other ≡ None) }
    {
        let mut sentence = String::new(alloc);
        sentence.push_str(
            "this part is too small: a section's side can be halved at most five times",
        )?;
        let mut help = String::new(alloc);
        help.push_str("the smallest part is 0.625 acre, such as ")?;
        help.push_str("NE1/4NE1/4NE1/4NE1/4NE1/4")?;
        Ok(Explained {
            end: chain_span(self.text, at as usize).end,
            sentence,
            help,
            other: None,
        })
    }

    /// An aliquot part that includes land of lots.
    fn explain_part_of_lots(&self, alloc: Global, at: u32) -> Result<Explained, AllocError>
        ensures span { IfOk result (λ explained. EndsLike (IsChainSpan self.now.text.now at) explained.end) }
        ensures other { IfOk result (λ explained. explained.other ≡ None) }
    {
        let mut sentence = String::new(alloc);
        let mut help = String::new(alloc);
        if let Some(part) = self.part_at(alloc, at)? {
            write_whole_lots(&part, &mut sentence)?;
            if part.are_whole {
                write_lots_and_rest(&part, &mut help)?;
            } else {
                write_lots_cut(&part, &mut help)?;
            }
        }
        Ok(Explained {
            end: chain_span(self.text, at as usize).end,
            sentence,
            help,
            other: None,
        })
    }

    /// The lots that the aliquot part at a place includes, whole or in part, and the rest of its land.
    fn part_at(&self, alloc: Global, at: u32) -> Result<Option<PartOfLots>, AllocError> {
        let Some(section) = self.section_at(at) else {
            return Ok(None);
        };
        let Some(Item::Chain { steps, .. }) = self.item_at(at) else {
            return Ok(None);
        };
        part_of_lots(alloc, self.township, section, steps, self.lots)
    }

    /// Land that was named before.
    fn explain_overlap(&self, alloc: Global, at: u32) -> Result<Explained, AllocError>
        ensures span { IfOk result (λ explained.
            EndsLike (IsSpanAt self.now.text.now self.now.description.now at) explained.end) }
        ensures other { IfOk result (λ explained. IsEarlierPlace (lotting (P.layout self.now.lots.now))
            self.now.origin.now self.now.text.now self.now.township self.now.description.now
            explained.other) }
    {
        let mut sentence = String::new(alloc);
        sentence.push_str("this land was named before")?;
        let EarlierItem { help, other } = self.earlier(alloc)?;
        Ok(Explained {
            end: self.span_at(at).end,
            sentence,
            help,
            other,
        })
    }

    /// Land that the plat doesn't have.
    fn explain_no_land(&self, alloc: Global, at: u32) -> Result<Explained, AllocError>
        ensures span { IfOk result (λ explained.
            EndsLike (IsSpanAt self.now.text.now self.now.description.now at) explained.end) }
        ensures other { IfOk result (λ explained. explained.other ≡ None) }
    {
        let mut sentence = String::new(alloc);
        let mut help = String::new(alloc);
        match self.part_at(alloc, at)? {
            Some(part) => {
                write_no_land(&part, &mut sentence)?;
                if !part.rest.is_empty() {
                    write_lots_and_rest(&part, &mut help)?;
                }
            }
            None => sentence.push_str("the plat has no land in this section")?,
        }
        Ok(Explained {
            end: self.span_at(at).end,
            sentence,
            help,
            other: None,
        })
    }

    /// The bytes of the item that begins at a place; where none does, those of the token there.
    fn span_at(&self, at: u32) -> Span
        ensures { IsSpanAt self.now.text.now self.now.description.now at result }
    {
        match self.item_at(at) {
            Some(item) => item_span(self.text, item),
            None => token_span(self.text, at as usize),
        }
    }
}
