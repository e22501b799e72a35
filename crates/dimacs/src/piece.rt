// A stretch of a text: a line or a word.
ghost use Rattle.std.specs.Prelude.{◌≡◌, ◌+◌, ◌<◌, ◌^◌, ℕ, Bool, length};
ghost use Rattle.std.specs.Iterator.{ActsAsAt};

// The offset of its first byte in the text, and its bytes.
#[derive(Clone, Copy)]
pub struct Piece<'a> {
    pub at: usize,
    pub bytes: &'a [u8],
    ghost fits: { at + length bytes.now < 2 ^ 64 },
}

impl<'a> Piece<'a> {
    ghost use Rattle.dimacs.specs.InnerPiece.{piece_of, before, from_first};

    // Up to the first byte that passes the test, and from there on.
    pub fn split_where<F: Fn(&u8) -> bool>(self, test: F) -> (Self, Self)
        requires { F.IsAlwaysCallable test }
        ensures { (t : ℕ → Bool) → ActsAsAt F.FnMut test t → (piece_of result.0 ≡ before t (piece_of self.entry)) × (piece_of result.1 ≡ from_first t (piece_of self.entry)) }
    {
        let end = self.bytes.iter().position(test).unwrap_or(self.bytes.len());
        (
            Piece {
                at: self.at,
                bytes: &self.bytes[..end],
            },
            Piece {
                at: self.at + end,
                bytes: &self.bytes[end..],
            },
        )
    }
}
