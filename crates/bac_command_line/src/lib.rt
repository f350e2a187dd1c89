//! The words of the program `bac`: from a command line to the job that it asks for, by `clap`. The
//! first word is the program's name.
#![tactic(auto)]

mod address;
mod addresses;
mod commands;
mod dates;
mod device_laws;
mod devices;
mod entries;
mod fault;
mod given;
mod group;
mod instances;
mod job;
mod keeping;
mod laws;
mod listing;
mod name;
mod names;
mod network;
mod numbers;
mod pages;
mod read;
mod route;
mod rows;
mod said;
mod tool_entries;
mod tools;
mod values;
mod word;

pub use addresses::Addresses;
pub use device_laws::{texts_list_devices, texts_list_none};
pub use devices::read_devices;
pub use fault::WordsFault;
pub use group::{Group, Groups, Way};
pub use instances::Instances;
pub use job::{
    Asked, Check, Discovery, Extent, Given, Job, Keep, KeepOptions, Kept, LogListing, LogReading,
    Period, PropertyReading, PropertyWriting, ServedDevice, Stations,
};
pub use laws::{
    lines_are_mistakes, lines_say_bad_values, lines_say_keep, lines_say_kept, lines_say_log,
    lines_say_logs, lines_say_others, lines_say_rp, lines_say_wi, lines_say_wp,
};
pub use listing::{ListFault, MOST_LISTED, read_addresses};
pub use name::Name;
pub use names::Names;
pub use read::read_words;
pub use route::read_route;
pub use values::{read_address, read_number, read_octet};
pub use word::Word;
