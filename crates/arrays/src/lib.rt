//! What an array holds that `array::from_fn` or `map` made: lemmas for code over arrays.
#![tactic(auto)]
