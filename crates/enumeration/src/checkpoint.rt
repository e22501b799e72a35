// S7.2: checkpoints: the one of the start, the bytes of assigned variables, and the form that a checkpoint has.
ghost use Rattle.std.specs.Prelude.{◌≡◌, ◌<◌, not, eqb};
ghost use Rattle.std.specs.List.{list_all};
ghost use Rattle.limits.specs.Limits.{max_variables};
ghost use Rattle.walk.specs.Checkpoints.{byte, byte_number, start};
ghost use Rattle.walk.specs.InnerTest.{formed};
ghost use Rattle.enumeration.specs.Values.{checkpoint_values};

use limits::MAX_VARIABLES;

// A checkpoint (request: marker): its mode, its length, and a byte for each assigned variable in order.
#[derive(Clone, Copy)]
pub struct Checkpoint {
    pub mode: u8,
    pub length: u8,
    pub bytes: [u8; MAX_VARIABLES],
}

// S8.3: the start checkpoint (request: start marker).
pub fn start_checkpoint() -> Checkpoint
    ensures { checkpoint_values result ≡ start }
{
    Checkpoint {
        mode: 0,
        length: 0,
        bytes: [0u8; MAX_VARIABLES],
    }
}

// A variable's byte in a checkpoint: its number from 1, plus 128 if true.
pub fn byte_of(v: usize, value: bool) -> u8
    requires { v < max_variables }
    ensures { result ≡ byte (record { variable = v; positive = value }) }
{
    if value {
        (v + 1 + 128) as u8
    } else {
        (v + 1) as u8
    }
}

// The number in a checkpoint's byte.
pub fn number_of(b: u8) -> usize
    ensures { result ≡ byte_number b }
{
    if 128 <= b {
        usize::from(b - 128)
    } else {
        usize::from(b)
    }
}

// No byte has the number 0.
fn has_numbers(bytes: &[u8]) -> bool
    ensures { result ≡ list_all (λ x. not (eqb (byte_number x) 0)) bytes.now }
{
    bytes.iter().all(|b| number_of(*b) != 0)
}

// All bytes are 0.
fn has_zeros(bytes: &[u8]) -> bool
    ensures { result ≡ list_all (λ x. eqb x 0) bytes.now }
{
    bytes.iter().all(|b| *b == 0)
}

impl Checkpoint {
    // The checkpoint's mode, length and bytes have the form of one: a number in each byte before the end, and 0 in each from the end on.
    pub(crate) fn is_well_formed(self) -> bool
        ensures { result ≡ formed (checkpoint_values self) }
    {
        let length = usize::from(self.length);
        if 4 < self.mode || MAX_VARIABLES < length {
            return false;
        }
        has_numbers(&self.bytes[..length]) && has_zeros(&self.bytes[length..])
    }
}
