//! A node's groups in a log.
#![tactic(auto)]

mod batches;
mod cleaning;
mod crash;
mod fault;
mod fuse;
mod group_storage;
mod places;
mod readings;
mod reads;
mod recent;
mod store;

pub use fault::{StoreFault, StoreRefusal};
pub use store::Store;
