//! Depths to which a lease is limited, before the land that it covers.

use crate::pieces::{Pieces, plus};
use twp_words::{alters_land, is_of_covering};

/// The most pieces of depths before land.
const LIMITS_MOST: usize = 48;

impl<'a> Pieces<'a> {
    /// Where depths to which a lease is limited end, before the land that it covers, as in
    /// `Limited to those depths from the surface to the base of the Lance Formation, insofar as the lease covers`.
    pub(crate) fn end_of_limits(&self, index: usize) -> Option<usize> {
        if !self.is(index, b"limited") || !self.is(plus(index, 1), b"to") {
            return None;
        }
        for place in plus(index, 2)..plus(index, LIMITS_MOST) {
            if is_of_covering(self.lower(place)) {
                let land = plus(place, 1);
                return if self.begins_place(land) || self.begins_part(land) {
                    Some(land)
                } else {
                    None
                };
            }
            let is_limit = self.may_be_land(place)
                || self.may_be_section(place)
                || alters_land(self.lower(place));
            if is_limit {
                return None;
            }
        }
        None
    }
}
