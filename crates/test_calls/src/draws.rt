//! Draws that are the same each time.

/// The next number of a linear congruential sequence. Its low bits have short periods, so draw from the high ones.
pub fn next(seed: u64) -> u64 {
    seed.wrapping_mul(6364136223846793005)
        .wrapping_add(1442695040888963407)
}
