// Numbers and vectors in a file of the corpus.
ghost use Rattle.std.specs.Prelude.{◌+◌, ◌≤◌, ◌≡◌, length, MatchOption, None, Some};
ghost use Rattle.vectors.specs.Corpus.{two_bytes, four_bytes, eight_bytes, parts_of, framed};

// A vector: its number, its input, its assumptions, the bytes that it expects, and its fields.
#[derive(Clone, Copy)]
pub struct Vector<'a> {
    pub number: u64,
    pub input: &'a [u8],
    pub assumptions: &'a [u8],
    pub expected: &'a [u8],
    pub fields: &'a [u8],
}

pub fn two_bytes(bytes: &[u8], at: usize) -> u16
    requires { at + 2 ≤ length bytes.now }
    ensures { result ≡ two_bytes bytes.now at }
{
    u16::from_le_bytes([bytes[at], bytes[at + 1]])
}

pub fn four_bytes(bytes: &[u8], at: usize) -> u32
    requires { at + 4 ≤ length bytes.now }
    ensures { result ≡ four_bytes bytes.now at }
{
    u32::from(two_bytes(bytes, at)) + 65536 * u32::from(two_bytes(bytes, at + 2))
}

pub fn eight_bytes(bytes: &[u8], at: usize) -> u64
    requires { at + 8 ≤ length bytes.now }
    ensures { result ≡ eight_bytes bytes.now at }
{
    u64::from(four_bytes(bytes, at)) + 4294967296 * u64::from(four_bytes(bytes, at + 4))
}

// The vector at the beginning, whose act has fields of a given size, and the bytes behind it; none if it runs past the end.
pub fn frame(bytes: &[u8], fields: usize) -> Option<(Vector<'_>, &[u8])>
    ensures { MatchOption result (framed bytes.now fields ≡ None) (λ r. framed bytes.now fields ≡ Some (parts_of r.0, r.1.now)) }
{
    let (head, rest) = bytes.split_at_checked(8)?;
    let (input, rest) = rest.split_at_checked(usize::from(two_bytes(head, 2)))?;
    let (assumptions, rest) = rest.split_at_checked(usize::from(two_bytes(head, 4)))?;
    let (expected, rest) = rest.split_at_checked(usize::from(two_bytes(head, 6)))?;
    let (fields, rest) = rest.split_at_checked(fields)?;
    let vector = Vector {
        number: u64::from(two_bytes(head, 0)),
        input,
        assumptions,
        expected,
        fields,
    };
    Some((vector, rest))
}
