// How many clauses name each variable, and the busiest of them.
ghost use Rattle.std.specs.Prelude.{◌≡◌, ℕ, cond, suc, ◌<◌, ltb, length};
ghost use Rattle.masks.specs.Mask.{bit};
ghost use Rattle.splitting.specs.declared.counts.TheConstants.{DIGITS};

// A count of 96 clauses at most has so many binary digits.
const DIGITS: usize = 7;

// How many clauses name each variable, for all variables at once: the binary digits of the counts, the last first, a mask for each.
#[derive(Clone, Copy)]
pub struct Counts {
    digits: [u64; DIGITS],
    ghost whole: { length digits ≡ DIGITS },
}

impl Counts {
    ghost use Rattle.splitting.specs.InnerChoose.{count_at, max_count, narrowed, Busiest};

    // Nothing is counted.
    pub fn none() -> Self
        ensures { (v : ℕ) → count_at result v ≡ 0 }
    {
        Counts {
            digits: [0; DIGITS],
        }
    }

    // One more for each member of the mask: each digit passes on what it carries.
    pub fn with(mut self, mask: u64) -> Self
        requires { (v : ℕ) → count_at self v < max_count }
        ensures { (v : ℕ) → count_at result v ≡ cond (bit mask v) (suc (count_at self v)) (count_at self v) }
    {
        let mut carry = mask;
        for digit in &mut self.digits {
            let carried = *digit & carry;
            *digit ^= carry;
            carry = carried;
        }
        self
    }

    // The variables whose count is not 0.
    pub fn counted(self) -> u64
        ensures { (v : ℕ) → bit result v ≡ ltb 0 (count_at self v) }
    {
        let mut mask = 0;
        for digit in &self.digits {
            mask |= *digit;
        }
        mask
    }

    // The members of the first that are members of the second, or all of the first if none is.
    fn narrow(mask: u64, digit: u64) -> u64
        ensures { result ≡ narrowed mask digit }
    {
        let both = mask & digit;
        if both == 0 { mask } else { both }
    }

    // The member with the highest count, and the lowest of these: digit by digit from the first, those stay that have the digit, if some do.
    pub fn busiest(self, mask: u64) -> usize
        requires { mask ≡ 0 → ⊥ }
        ensures { Busiest (count_at self) mask result }
    {
        let mut most = mask;
        for i in (0..DIGITS).rev() {
            most = Self::narrow(most, self.digits[i]);
        }
        masks::lowest(most)
    }
}
