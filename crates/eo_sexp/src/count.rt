//! Numbers in three bytes.
ghost use Rattle.std.specs.Prelude.{◌≡◌, ◌<◌, ◌^◌};
ghost use Rattle.eo_sexp.specs.Counts.{count_of};

/// A number below 2^24, which is more than a command has bytes, in three bytes.
#[derive(Clone, Copy, Debug)]
pub(crate) struct Count {
    low: u8,
    middle: u8,
    high: u8,
}

impl Count {
    /// This number.
    pub(crate) fn new(n: usize) -> Count
        requires { n < 2 ^ 24 }
        ensures { count_of result ≡ n }
    {
        Count {
            low: (n % 256) as u8,
            middle: (n / 256 % 256) as u8,
            high: (n / 256 / 256) as u8,
        }
    }

    /// The number.
    pub(crate) fn get(self) -> u32
        ensures { result ≡ count_of self }
    {
        (u32::from(self.high) * 256 + u32::from(self.middle)) * 256 + u32::from(self.low)
    }
}
