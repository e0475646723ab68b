//! Townships and ranges where they are written again: `T. 2 N., R. 3 W., `.

use crate::draft::Draft;
use crate::numerals::WrittenNumber;
use crate::phrase::Phrase;
use twp_asides::plus;
use twp_rules::Rule;

impl<'a> Draft<'a> {
    /// Writes a township and range at a place where they aren't.
    pub fn copy_heading(&mut self, place: usize, heading: Phrase) {
        let pieces = &self.pieces;
        let first = heading.numbers.first;
        let (Some(tier), Some(range)) = (
            self.numbers.get(first).copied(),
            self.numbers.get(plus(first, 1)).copied(),
        ) else {
            return;
        };
        let north = pieces.is(tier.end, b"n")
            || pieces.is(tier.end, b"north")
            || pieces.is(tier.end, b"nr");
        let east = pieces.is_east_west(range.end)
            && (pieces.is(range.end, b"e") || pieces.is(range.end, b"east"));
        self.write(place, place, b"T. ", Rule::Heading);
        self.copy_tier(place, tier);
        self.write(
            place,
            place,
            if north { b" N., R. " } else { b" S., R. " },
            Rule::Heading,
        );
        self.copy_tier(place, range);
        self.write(
            place,
            place,
            if east { b" E., " } else { b" W., " },
            Rule::Heading,
        )
    }

    /// Writes the number of a township or a range at a place where it isn't.
    fn copy_tier(&mut self, place: usize, number: WrittenNumber) {
        let dropped = usize::from(self.pieces.has_digits(number.first, 4));
        self.copy_numeral(place, number, dropped)
    }
}
