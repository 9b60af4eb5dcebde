//! Numbers without a pattern, and addresses by them.

ghost use Rattle.std.specs.Prelude.{◌+◌, ◌^◌, ◌<◌};
ghost use Rattle.lpm_bits.specs.Widths.{IsShape};

use lpm_bits::Shape;

/// A fixed list of numbers without a pattern.
#[derive(Clone, Copy)]
pub(crate) struct Draw {
    seed: u64,
}

impl Draw {
    /// The list of this number.
    pub(crate) fn new(number: u32) -> Self {
        Draw {
            seed: u64::from(number).wrapping_mul(0x9e37_79b9_7f4a_7c15),
        }
    }

    /// The next number, below `count`.
    pub(crate) fn below(&mut self, count: u32) -> u32
        requires { 0 < count }
        ensures { result < count }
    {
        self.seed = self
            .seed
            .wrapping_mul(6_364_136_223_846_793_005)
            .wrapping_add(1_442_695_040_888_963_407);
        ((self.seed >> 40) % u64::from(count)) as u32
    }

    /// Whether this happens, once in so many times.
    pub(crate) fn once_in(&mut self, count: u32) -> bool
        requires { 0 < count }
    {
        self.below(count) == 0
    }

    /// An address of the first blocks: of the first 16 addresses of a narrow table, else of the first 48.
    pub(crate) fn addr<const FIRST: u32, const SECOND: u32>(&mut self) -> u32
        requires { IsShape FIRST SECOND }
        ensures { result < 2 ^ (FIRST + SECOND) }
    {
        let addr = if FIRST + SECOND < 6 {
            self.below(16)
        } else {
            self.below(48)
        };
        if Shape::<FIRST, SECOND>::is_addr(addr) {
            addr
        } else {
            0
        }
    }
}
