// How many vectors were run, and how many answers differed.
ghost use Rattle.std.specs.Prelude.{◌≡◌};
ghost use Rattle.vectors.specs.Totals.{counted, RoomFor};

#[derive(Clone, Copy)]
pub struct Totals {
    pub vectors: u64,
    pub differences: u64,
}

impl Totals {
    pub fn none() -> Self
        ensures { (result.vectors ≡ 0) × (result.differences ≡ 0) }
    {
        Totals {
            vectors: 0,
            differences: 0,
        }
    }

    // One vector more, whose answer is the expected one or differs.
    pub fn count(self, agrees: bool) -> Self
        requires { RoomFor 1 self }
        ensures { result ≡ counted self agrees }
    {
        Totals {
            vectors: self.vectors + 1,
            differences: self.differences + u64::from(!agrees),
        }
    }
}
