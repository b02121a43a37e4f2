//! Amounts that go by the size of a family.
ghost use Rattle.std.specs.Prelude.{◌≡◌, ◌<◌, length};
ghost use Rattle.aid_types.specs.Ranges.{EachIsAmount, IsAmount};

/// Amounts in dollars by size of family: for `COUNT` sizes from `FIRST` on, and what each further member adds.
#[derive(Clone, Copy, PartialEq, Eq)]
pub struct BySize<const FIRST: u8, const COUNT: usize> {
    pub sizes: [i64; COUNT],
    pub extra: i64,
    pub ghost sizes_counted: { length sizes ≡ COUNT },
    pub ghost sizes_in_range: { EachIsAmount sizes },
    pub ghost extra_in_range: { IsAmount extra },
}

/// The poverty guideline of a region: for families of 1 to 8, and what each further member adds (42 U.S.C. 9902(2)).
pub type Guideline = BySize<1, 8>;

/// An income protection allowance: for families of 2 to 6, and what each further member adds (HEA 478(b)).
pub type Allowance = BySize<2, 5>;

impl<const FIRST: u8, const COUNT: usize> BySize<FIRST, COUNT> {
    ghost use Rattle.aid_books.specs.BySize.{by_size};
    ghost use Rattle.aid_types.specs.Ranges.{IsSumOf};

    /// The amount for a family of this size.
    pub fn at(&self, family: u8) -> i64
        requires { 0 < COUNT }
        ensures value { result ≡ by_size FIRST self.now.sizes self.now.extra family }
        ensures in_range { IsSumOf 256 result }
    {
        let past_first = usize::from(family.saturating_sub(FIRST));
        let entry = past_first.min(COUNT - 1);
        self.sizes[entry] + (past_first - entry) as i64 * self.extra
    }
}
