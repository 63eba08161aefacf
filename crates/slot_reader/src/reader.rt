// The call that reads a slot.
ghost use Rattle.std.specs.Prelude.{◌≡◌};
ghost use Rattle.slot.specs.Calls.{read_answer, read_area};
ghost use Rattle.slot.specs.Reading.{as_slot_read};

use crate::received;
use plan::FrameState;
use slot::SlotReading;

// Reads the slot at the state's place: header and data octets, the state one place on, and the stuff bits. A slot that is
// refused for its parity or BCH bits leaves the octets as they were, and the state moves on all the same.
pub fn read_slot(state: FrameState, table: &[u16], coded: &[u8], source: &mut [u8]) -> SlotReading
    ensures value { as_slot_read result ≡ read_answer state table.now coded.now source.old }
    ensures source_after { source.new ≡ read_area state table.now coded.now source.old }
{
    let rows = match slot::check_slot(state, table, source, coded) {
        Ok(rows) => rows,
        Err(refused) => {
            return SlotReading {
                state,
                stuff: Err(refused),
            };
        }
    };
    let mut bits = [0u8; plan::SLOT_BITS];
    let mut input = [0u8; plan::SLOT_BITS];
    let mut sums = [0u8; plan::MOST_PARITY];
    let found = received::read(
        rows,
        table,
        state.mask,
        state.register,
        coded,
        &mut bits,
        &mut input,
        &mut sums,
        source,
    );
    let next = plan::advanced(state, found.register);
    SlotReading {
        state: next,
        stuff: found.stuff,
    }
}
