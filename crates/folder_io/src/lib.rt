//! What may a program know of the files that it takes and puts, and of the text that it writes?
//!
//! A program reaches the outside through two traits, [`Folder`] and [`Sink`]. Each has a count of
//! failures, and tells what it holds or tells nothing.
//!
//! 1. The count never falls, and only an answer Failed may change it.
//! 2. An answer Failed comes only where the count rose: it is greater than before the call, or stands
//!    at 2^64 - 1, the counter's last value.
//! 3. After Failed a folder's `last` is the name that the call was given; no other answer changes it.
//! 4. A take leaves what is held. A put changes what is held under its name alone.
//! 5. What tells goes on telling, and what tells nothing goes on telling nothing.
//!
//! [`FolderMem`] and [`SinkMem`] tell everything and fail at the calls that they were made to fail at.
//! [`FolderSure`] and [`SinkSure`] tell everything and never fail. [`FolderDisk`] and [`SinkStd`] are the
//! real outside, of which nothing is told.
#![tactic(auto)]

mod disk;
mod faults;
mod folder;
mod memory;
mod plan;
mod sink;
mod standard;
mod sure;
mod table;
mod whole;

pub use disk::FolderDisk;
pub use faults::{PutFault, SinkFault, TakeFault};
pub use folder::Folder;
pub use memory::{FolderMem, SinkMem};
pub use sink::Sink;
pub use standard::SinkStd;
pub use sure::{FolderSure, SinkSure};
