//! What a lane of a row of vectors holds: definitions and lemmas for code over `std::simd`.
#![tactic(auto)]
