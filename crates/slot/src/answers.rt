// What reading a slot answers C.
ghost use Rattle.std.specs.Prelude.{◌≡◌};
ghost use Rattle.slot.specs.Reading.{as_slot_read};

use crate::{NO_STUFF, SlotRead, SlotReading};

// Number, state, stuff bits and failing position of a reading.
impl From<SlotReading> for SlotRead {
    ghost from_gives = { λ reading told. told ≡ as_slot_read reading };

    fn from(reading: SlotReading) -> SlotRead {
        let state = reading.state;
        match reading.stuff {
            Ok(stuff) => SlotRead {
                number: 0,
                state,
                stuff,
                position: codeword::NO_POSITION,
            },
            Err(refused) => SlotRead {
                number: refused.number(),
                state,
                stuff: NO_STUFF,
                position: codeword::position_of(refused),
            },
        }
    }
}
