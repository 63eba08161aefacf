// Numbers that the program is started with.
use std::rt::Env;

// The number that an argument says, or another where it says none.
pub fn number_or(rt: &impl Env, place: usize, other: u64) -> u64 {
    // No number has more octets, so an argument that does not fit says none.
    let mut word = [0u8; 16];
    match rt.arg(place, &mut word) {
        Ok(length) => numerals::number(&word[..length]).map_or(other, u64::from),
        Err(_) => other,
    }
}
