// Octets to code, and a digest of octets.

// Fills an area by a linear congruence modulo 2^32: the top eight bits of each number after the seed.
pub fn fill(seed: u64, area: &mut [u8]) {
    let mut x = seed % 4294967296;
    for octet in area.iter_mut() {
        x = (x * 1664525 + 1013904223) % 4294967296;
        *octet = (x / 16777216) as u8;
    }
}

// A sum of the octets, each one more, times falling powers of 1,000,003, modulo the prime 2^32 - 5.
pub fn digest(area: &[u8]) -> u64 {
    let mut sum: u64 = 0;
    for octet in area {
        sum = (sum * 1000003 + u64::from(*octet) + 1) % 4294967291;
    }
    sum
}
