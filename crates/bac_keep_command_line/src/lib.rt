//! What the words of `bac keep` ask for, as a run over an archive takes it, and which device those
//! of `bac kept` name.
//!
//! [`read_keep`] makes the run of the words and of this moment, with our own address; [`read_stop`]
//! what is stopped (specs/Orders); [`read_device`] which logs are printed (specs/Printing). Each
//! device, log and option is read by the rules of `bac log`, in its order, and the first one that
//! is wrong is the fault. Nothing is sent, and no file opened.
#![tactic(auto)]

mod devices;
mod fault;
mod options;
mod orders;
mod printing;
mod texts;
mod values;

pub use fault::Fault;
pub use orders::{Order, read_keep, read_stop};
pub use printing::{BehindRouter, Device, read_device};
