// How many bits and octets the parts of a slot have, for the row count of a known rate: a number, as `rows` of plan gives C.
ghost use Rattle.std.specs.Prelude.{◌≡◌};
ghost use Rattle.plan.specs.Needs.{Rows};
ghost use Rattle.slot.specs.Slots.{message_bits, source_octets, slot_shape};

use codeword::Shape;

// Header and data.
pub fn message_bits(rows: usize) -> usize
    requires { Rows rows }
    ensures { result ≡ message_bits rows }
{
    176 + 374 * (rows - 1)
}

// Header and data in octets.
pub fn source_octets(rows: usize) -> usize
    requires { Rows rows }
    ensures { result ≡ source_octets rows }
{
    message_bits(rows) / 8
}

// The codeword that a slot is: six stuff bits behind the BCH bits, and parity over these bits alone.
pub fn shape(rows: usize) -> Shape
    requires { Rows rows }
    ensures { result ≡ slot_shape rows }
{
    let message = message_bits(rows);
    Shape {
        width: plan::SLOT_WIDTH,
        rows,
        message,
        tail: 6,
        before: 0,
        behind: 0,
        octets: plan::SLOT_OCTETS,
    }
}
