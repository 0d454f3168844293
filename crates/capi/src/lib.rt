// The library for C: an offer's admission, a stripe's plan, and a sheet's answers. Numbers, and slices of numbers, go in and
// out; nothing is kept between calls. A slice is a pointer and then a length. No C caller is held to a `requires`, so there is
// none: each function takes any numbers, and tells by a number what it does not take.
#![tactic(auto)]

pub mod admission;
mod lists;
pub mod plans;
mod refused;
pub mod sheets;
pub mod sites;
