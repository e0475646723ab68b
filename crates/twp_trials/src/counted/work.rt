use crate::mixed::Mixed;
use twp_land::Land;

/// A kind of work on land. `Blocks` only makes the sections and blocks, for comparison.
#[derive(Clone, Copy)]
pub enum Work {
    Blocks,
    Add,
    Meets,
    Full,
    Count,
    /// Tests whether the land meets a block, and then adds the block, as for a description's
    /// blocks.
    Take,
}

impl Work {
    /// The kind of work with a name.
    pub fn read(name: &str) -> Option<Work> {
        match name {
            "blocks" => Some(Work::Blocks),
            "add" => Some(Work::Add),
            "meets" => Some(Work::Meets),
            "full" => Some(Work::Full),
            "count" => Some(Work::Count),
            "take" => Some(Work::Take),
            _ => None,
        }
    }
}

/// Does the work a number of times on land with 200 mixed blocks, and returns a sum of its results.
/// It is not inlined, so that what is counted does not depend on the rest of the program.
#[inline(never)]
pub fn measure<L: Land>(work: Work, times: u32) -> u32 {
    let mut mixed = Mixed::new();
    let mut land = L::empty();
    for _ in 0..200u32 {
        let section = mixed.section();
        land.add(section, mixed.block());
    }
    let mut tally = 0u32;
    for _ in 0..times {
        let section = mixed.section();
        let block = mixed.block();
        let answer = match work {
            Work::Blocks => u32::from(block.width()),
            Work::Add => {
                land.add(section, block);
                1
            }
            Work::Meets => u32::from(land.meets(section, block)),
            Work::Full => u32::from(land.full(section, block)),
            Work::Count => land.count(section, block),
            Work::Take => {
                let meets = land.meets(section, block);
                land.add(section, block);
                u32::from(meets)
            }
        };
        tally = tally.wrapping_add(answer);
    }
    tally
}
