// Sealed counter devices: each count is given to one record, under a tag that others can check.
#![tactic(auto)]

mod compare;
mod counter;
mod device;
mod group;
mod keys;
mod pair;
mod usig;

pub use device::Device;
pub use group::{GroupKey, KeyBytes};
pub use pair::{PairKey, SharedKeys};
pub use usig::{Usig, check_record};
