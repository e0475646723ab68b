// Made by tools/words.py from words.tsv and classes.tsv. To change a word, change its row there.
//! Words of what is said before land without a mark at its end.

use crate::same::is_among;

/// Words of which what is said before land has at least one, if no mark ends it, as in `taxes on the NE1/4`.
pub fn is_of_lead(word: &[u8]) -> bool {
    match word.len() {
        3 => is_among(word, 0x2104290_0004e004, "bid buy mtg nri own rpt"),
        4 => is_among(
            word,
            0x2185230_0028d158,
            "case deed file hold levy lien npri orri owns sale sell unit",
        ),
        5 => is_among(
            word,
            0x21c0020_001091b4,
            "bonus deeds entry grant holds lease offer order owner taxes title",
        ),
        6 => is_among(
            word,
            0x21c51b0_000dd0bc,
            "bought buying copies decree docket estate grants leased leases lessee lessor \
             notice offers option owners patent permit policy rental report search serial",
        ),
        7 => is_among(
            word,
            0x21c50a0_000db182,
            "acreage grantee grantor hearing leasing mineral opinion patents pooling \
             probate receipt records rentals reports royalty selling spacing",
        ),
        8 => is_among(
            word,
            0x1840a0_0005261a,
            "abstract contract division drilling interest judgment minerals mortgage \
             petition purchase runsheet",
        ),
        9 => is_among(
            word,
            0x196030_0047a20a,
            "affidavit applicant contracts insurance interests mortgages ownership \
             purchased quitclaim royalties runsheets valuation",
        ),
        10 => is_among(
            word,
            0x186020_0000600a,
            "affidavits assessment assignment commitment conveyance memorandum nomination",
        ),
        11 => is_among(
            word,
            0x84020_0000000a,
            "application assignments certificate",
        ),
        12 => is_among(word, 0x4000_00040000, "ratification"),
        _ => false,
    }
}
