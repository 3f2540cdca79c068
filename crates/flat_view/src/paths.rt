//! The numbers of finest tiles along one path through space.
ghost use Rattle.std.specs.Prelude.{◌≡◌, ◌<◌, ◌^◌};
ghost use Rattle.flat_view.specs.Paths.{path_number, AreDigits};

/// The bits of each number under 1,024 as digits of base 4, by which path numbers are made.
#[derive(Clone, Copy)]
pub struct Paths {
    digits: [u32; 1024],
    ghost filled: { AreDigits digits },
}

impl Paths {
    /// All digits.
    pub fn new() -> Paths {
        let mut digits = [0u32; 1024];
        for n in 1..1024usize {
            digits[n] = 4 * digits[n / 2] + (n % 2) as u32;
        }
        Paths { digits }
    }

    /// The last 20 bits of a number as digits of base 4.
    fn digits_of(&self, n: u32) -> u64
        ensures digits { result ≡ path_number 20 n 0 }
        ensures small { result < 4 ^ 20 }
    {
        let high = self.digits[(n / 1024 % 1024) as usize];
        let low = self.digits[(n % 1024) as usize];
        u64::from(high) * 1_048_576 + u64::from(low)
    }

    /// The path number of a column and a row, by 20 levels.
    pub fn number(&self, x: u32, y: u32) -> u64
        ensures { result ≡ path_number 20 x y }
    {
        self.digits_of(x) + 2 * self.digits_of(y)
    }
}
