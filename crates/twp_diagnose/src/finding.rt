//! What was found wrong, and the message that says so; and for an aliquot part that includes land of lots,
//! these lots and the rest of the part.
ghost use Rattle.std.specs.Prelude.{◌≡◌, None, IfOk, MatchOption};
ghost use Rattle.twp_diagnose.specs.Findings.{IfFound, IsStopOf};
ghost use Rattle.twp_diagnose.specs.ShownMessages.{ShowsIn};
ghost use Rattle.twp_diagnose.specs.Spots.{IsSpotOf};
ghost use Rattle.twp_grid.specs.Places.{PLACE_DIGITS};
ghost use Rattle.twp_grid.specs.Cuts.{AreWithin};
ghost use Rattle.twp_grid.specs.Lands.{lotting};
ghost use Rattle.twp_grammar.specs.ItemPlaces.{cuts_of};
ghost use Rattle.twp_diagnose.specs.PartOfLots.{IsPartOfLots, left_of_section};

use crate::explanation::{Explanation, OtherPlace};
use crate::location::{Given, Located, Location, message_at};
use crate::section_lots::{fill_with_lots, fill_with_section, holds_whole_lots};
use std::alloc::{AllocError, Global};
use twp_grammar::{Steps, chain_block};
use twp_grid::{Refusal, Section, Township};
use twp_land::{Land, Lanes, Lotting};
use twp_spell::{held_lots, spell};

/// What was found wrong.
#[derive(Drop)]
pub struct Finding {
    /// The refusal.
    pub refusal: Refusal,
    /// Where it is shown.
    pub place: Location,
    /// What is wrong.
    pub sentence: String,
    /// What corrects it or explains it further: lines without the last line feed; empty for none.
    pub help: String,
    /// The other place that is named there, if one is.
    pub other: Option<OtherPlace>,
    /// The reading of the text that ends the help, if one does.
    pub reading: Option<Vec<u8>>,
}

/// Why the explanation of a fault ends.
#[derive(Drop)]
pub enum SearchStop {
    /// It was found.
    Found(Finding),
    /// Memory ran out.
    Memory,
}

impl From<AllocError> for SearchStop {
    fn from(_fault: AllocError) -> SearchStop {
        SearchStop::Memory
    }
}

impl SearchStop {
    /// The stop of what was found of a refusal, or of want of memory.
    pub fn of(refusal: Refusal, found: Result<Finding, AllocError>) -> SearchStop
        requires { IfOk found (λ finding. finding.refusal ≡ refusal) }
        ensures refusal { IfFound result (λ found. found ≡ refusal) }
        ensures found { IsStopOf found result }
    {
        match found {
            Ok(finding) => SearchStop::Found(finding),
            Err(_) => SearchStop::Memory,
        }
    }
}

impl Finding {
    /// What was found, without another place or a reading.
    pub fn new(refusal: Refusal, place: Location, sentence: String, help: String) -> Finding
        ensures refusal { result.refusal ≡ refusal }
        ensures place { result.place ≡ place }
        ensures other { result.other ≡ None }
    {
        Finding {
            refusal,
            place,
            sentence,
            help,
            other: None,
            reading: None,
        }
    }

    /// The message about a file.
    pub fn explain(self, alloc: Global, file: &Given<'_>) -> Result<Explanation, AllocError>
        ensures refusal { IfOk result (λ explanation. explanation.refusal ≡ self.refusal) }
        ensures place { IfOk result (λ explanation. explanation.place ≡ self.place) }
        ensures spot { IfOk result (λ explanation. IsSpotOf file.now self.place explanation.spot) }
        ensures shows { IfOk result (ShowsIn file.now) }
        ensures other { IfOk result (λ explanation. explanation.other ≡ self.other) }
    {
        let help = self.help.as_str();
        let Located { spot, text, parts } = message_at(
            alloc,
            file,
            self.place,
            self.sentence.as_str(),
            help,
        )?;
        Ok(Explanation {
            refusal: self.refusal,
            place: self.place,
            spot,
            text,
            parts,
            other: self.other,
            reading: self.reading,
        })
    }
}

/// The land of an aliquot part that holds land of lots.
#[derive(Drop)]
pub struct PartOfLots {
    /// The section that it is a part of.
    pub section: Section,
    /// The lots of which it holds some place, by rising number.
    pub lots: Vec<u8>,
    /// Whether it holds each of these lots wholly, and cuts none.
    pub are_whole: bool,
    /// The one spelling of the land that it holds besides.
    pub rest: Vec<u8>,
}

/// The lots of which an aliquot part of a section holds some place, and the land that it holds besides. None
/// where one of its steps would halve a side of one place.
#[tactic(auto, using(crate::proofs::PartFacts::part_found))]
#[inline(never)]
pub fn part_of_lots<P: Lotting>(
    alloc: Global,
    township: Township,
    section: Section,
    steps: &Steps,
    lots: &P,
) -> Result<Option<PartOfLots>, AllocError>
    ensures { IfOk result (λ explained. MatchOption explained (¬ AreWithin PLACE_DIGITS (cuts_of steps.now))
        (IsPartOfLots (lotting (P.layout lots.now)) township section steps.now)) }
{
    let Some(block) = chain_block(steps) else {
        return Ok(None);
    };
    let mut land = Lanes::empty();
    land.add(section, block);
    let held = held_lots(alloc, &land, section, lots)?;
    let are_whole = holds_whole_lots(&land, section, lots);
    keep_off_lots(&mut land, section, lots);
    let rest = spell(alloc, &land, township, lots)?;
    Ok(Some(PartOfLots {
        section,
        lots: held,
        are_whole,
        rest,
    }))
}

/// Keeps of a set the places of a section at which the plat has land that is in no lot.
#[inline(never)]
fn keep_off_lots<L: Land, P: Lotting>(land: &mut L, section: Section, lots: &P)
    ensures { L.places land.new
        ≡ left_of_section (lotting (P.layout lots.now)) section (L.places land.old section) }
{
    let mut places = L::empty();
    fill_with_lots(&mut places, section, lots);
    land.take_away(&places);
    fill_with_section(&mut places, section, lots);
    land.keep_common(&places);
}
