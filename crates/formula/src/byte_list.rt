// A list of bytes that is copied with what holds it.
ghost use Rattle.std.specs.Prelude.{◌≡◌, ◌+◌, ◌<◌, ◌≤◌, [], ◌∷◌, ◌++◌, length};

use std::marker::Model;

// At most CAP bytes, in order. The places behind them hold zeros: so the bytes tell the whole value, as Copy needs.
#[derive(Clone, Copy)]
pub struct ByteList<const CAP: usize> {
    cells: [u8; CAP],
    len: usize,
}

impl<const CAP: usize> Model for ByteList<CAP> {
    ghost use Rattle.std.specs.Prelude.{◌≡◌, ◌≤◌, ℕ, length, take};
    ghost use Rattle.std.proofs.Common.{sym};
    ghost use Rattle.arrayvec.specs.ArrayVec.{ArrayVec as Items};
    ghost use Rattle.lists.specs.Padded.{padded};
    ghost use Rattle.lists.proofs.StoreLaws.{held_length};

    ghost Value = { Items ℕ };

    ghost view = { λ l. record { items = take l.len l.cells } };

    ghost invariant = { λ l. (l.len ≤ CAP) × (l.cells ≡ padded CAP 0 (take l.len l.cells)) };

    ghost inverse = { λ v. record { cells = padded CAP 0 v.items; len = length v.items } };

    ghost inverse_ok = { λ l h i. record {
      cells = sym h.1 i;
      len = (held_length CAP 0 l.cells l.len h.0 h.1).1 i;
    } };
}

impl<const CAP: usize> ByteList<CAP> {
    // A list without bytes.
    pub fn new() -> Self
        ensures { result.items ≡ [] }
    {
        ByteList {
            cells: [0; CAP],
            len: 0,
        }
    }

    // Appends a byte. There must be room.
    #[inline]
    pub fn push(&mut self, byte: u8)
        requires { length self.old.items < CAP }
        ensures items { self.new.items ≡ self.old.items ++ byte ∷ [] }
        ensures len { length self.new.items ≡ length self.old.items + 1 }
    {
        let len = self.len;
        self.cells[len] = byte;
        self.len = len + 1;
    }

    // The bytes.
    #[inline]
    pub fn as_slice(&self) -> &[u8]
        ensures value { result.now ≡ self.now.items }
        ensures fits { length result.now ≤ CAP }
    {
        &self.cells[..self.len]
    }
}
