use twp_grid::{Block, PLACE_DIGITS, Section, Side};

/// Sections and blocks that look random, the same ones each time: each step multiplies by 1,664,525
/// and adds 1,013,904,223, modulo 2 to the 32nd.
#[derive(Drop)]
pub struct Mixed {
    state: u32,
}

impl Mixed {
    /// From the start.
    pub fn new() -> Mixed {
        Mixed { state: 1796 }
    }

    fn next(&mut self) -> u32 {
        self.state = self
            .state
            .wrapping_mul(1_664_525)
            .wrapping_add(1_013_904_223);
        self.state >> 8
    }

    /// Yes or no.
    pub fn choice(&mut self) -> bool {
        self.next() % 2 == 0
    }

    /// A section.
    pub fn section(&mut self) -> Section {
        let number = self.next();
        Section::at((number % 6) as u8, (number / 6 % 6) as u8)
    }

    /// A block that is reached from a section by halving it, at most as often as for the smallest
    /// part.
    pub fn block(&mut self) -> Block {
        let mut block = Block::whole();
        let halves = self.next() % (2 * PLACE_DIGITS as u32 + 1);
        for _ in 0..halves {
            let side = match self.next() % 4 {
                0 => Side::N,
                1 => Side::S,
                2 => Side::E,
                _ => Side::W,
            };
            block = block.half(side).unwrap_or(block);
        }
        block
    }
}
