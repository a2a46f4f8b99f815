// Numbers that look random, and keys and values of them.
ghost use Rattle.std.specs.Prelude.{◌<◌};

use page_store::{LONGEST_KEY, LONGEST_VALUE};
use std::alloc::{AllocError, Global};

/// Numbers that look random, by a seed.
#[derive(Drop)]
pub struct Dice {
    state: u64,
}

impl Dice {
    pub fn new(seed: u64) -> Self {
        Dice {
            state: seed.wrapping_mul(0x9e37_79b9_7f4a_7c15).wrapping_add(1),
        }
    }

    /// A number below the count of sides.
    pub fn roll(&mut self, sides: usize) -> usize
        requires { 0 < sides }
        ensures { result < sides }
    {
        self.state = self
            .state
            .wrapping_mul(6_364_136_223_846_793_005)
            .wrapping_add(1_442_695_040_888_963_407);
        (self.state >> 33) as usize % sides
    }

    /// So many bytes.
    fn bytes(&mut self, alloc: Global, length: usize) -> Result<Vec<u8>, AllocError> {
        let mut bytes = Vec::with_capacity(alloc, length)?;
        for _ in 0..length {
            bytes.push(self.roll(256) as u8)?;
        }
        Ok(bytes)
    }

    /// A value: none, the longest, or of any length up to that.
    pub fn value(&mut self, alloc: Global) -> Result<Vec<u8>, AllocError> {
        let length = match self.roll(8) {
            0 => 0,
            1 => LONGEST_VALUE,
            _ => self.roll(LONGEST_VALUE + 1),
        };
        self.bytes(alloc, length)
    }
}

/// The key of a number: keys of 300 numbers in a row have all lengths. Those of every third number are the same but for their ends.
pub fn key(alloc: Global, number: usize) -> Result<Vec<u8>, AllocError> {
    let length = number % LONGEST_KEY + 1;
    if number % 3 > 0 {
        return Dice::new(number as u64).bytes(alloc, length);
    }
    let mut bytes = vec![in alloc; b'k'; length]?;
    if let Some(last) = bytes.last_mut() {
        *last = (number / 3 % 256) as u8;
    }
    Ok(bytes)
}
