// Made by tools/words.py from words.tsv and classes.tsv. To change a word, change its row there.
//! Words of remarks after land that are known to say nothing of which land is meant: agencies, offices,
//! counties, what is known of leases and patents, and companies.

use crate::same::is_among;

/// Words with which the name of a company ends.
pub fn is_company(word: &[u8]) -> bool {
    match word.len() {
        2 => is_among(word, 0x10000_00001000, "lp"),
        3 => is_among(word, 0x10018_00001200, "inc llc llp ltd"),
        4 => is_among(word, 0x10008_00011008, "corp lllp pllc"),
        5 => is_among(word, 0x100000_00100000, "trust"),
        7 => is_among(word, 0x2000000_00000008, "company"),
        11 => is_among(word, 0x10000_00010000, "partnership"),
        _ => false,
    }
}

/// Words of which a remark after land has at least one, if it has no number of a lease or a record.
pub fn is_known(word: &[u8]) -> bool {
    match word.len() {
        2 => is_among(
            word,
            0x10d8290_02a53152,
            "ag do fo hd lp mi pd ps ri ux wi yr",
        ),
        3 => is_among(
            word,
            0x73df2fa_0275f7fe,
            "ada amt aol apo aum blm bpo cfs csu dle doc dry dtd due efd eff eoi exp fax \
             fee grz hay hbo hbp hbu inc int irr joa llc lse ltd mer min mtg nma nra nri \
             nso ofc oil pat per pls pvt rec reg rel res roy rpt thx usa val vir yrs",
        ),
        4 => is_among(
            word,
            0x25deb32_00bff37e,
            "acct attn aums auth book case cash code coop corp crop cult date dept dist \
             elev file heir inst levy lien loan memo mgmt mins npra npri open orri page \
             paid quad rate recd srhe term unit usfs wife",
        ),
        5 => is_among(
            word,
            0x9ddbb0_00dd93fe,
            "adams boise bonus buyer cause clark class dated email filed final gross heirs \
             idaho instr irrig issue latah lease lemhi owner phone price rents scrip state \
             stips taxes teton title total value waste wheat widow",
        ),
        6 => is_among(
            word,
            0x23ed0ba_005df67e,
            "active amount annual blaine bonded bureau canyon cassia closed consid county \
             custer delinq deputy desert docket elmore energy factor fileno filing forest \
             issued jerome leases lessee lessor market notary office oneida owyhee patent \
             payout permit policy public rental report seller serial signed single status \
             thanks timber vendee vendor vested",
        ),
        7 => is_among(
            word,
            0x23c78b2_009d33fe,
            "account alfalfa auditor bankers banking bannock bingham caption caribou \
             checked company contact decimal expires fremont gooding grantee grantor \
             grazing husband invoice issuing lessees lessors madison minimum payette \
             primary private receipt renewal royalty savings trustee widower witness",
        ),
        8 => is_among(
            word,
            0x1c40ba_003da03a,
            "assessed assessor assignor curative district domestic duchesne entryman \
             expiring minidoka mortgage operator partners patentee prepared recorded \
             recorder register reviewed runsheet shoshone trustees unfenced",
        ),
        9 => is_among(
            word,
            0x21c70b0_005de622,
            "agreement appraisal appraised attention effective endowment insurance \
             inventory jefferson mortgagee nominated operating operators petroleum \
             producing protested purchaser renewable resources royalties suspended \
             telephone valuation",
        ),
        10 => is_among(
            word,
            0x144030_000a2236,
            "assessment authorized bonneville delinquent department expiration instrument \
             irrigation management quadrangle stockwater",
        ),
        11 => is_among(
            word,
            0x2004020_00040038,
            "competitive cooperative delinquency exploration reclamation",
        ),
        12 => is_among(word, 0x84000_00090000, "prescription stipulations"),
        13 => is_among(word, 0x4000_00000008, "consideration"),
        14 => is_among(word, 0x20_00004000, "noncompetitive"),
        _ => false,
    }
}
