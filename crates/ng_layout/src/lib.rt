//! How the journal's data is laid out in the sectors of a device, and what such sectors mean (own; docs/DEVICE.md).
//!
//! What is written is read back, or refused as damaged exactly if a field is out of its range: `Header`, `decode`,
//! `Stored::sector`, `text_sector`, `first_part`, `changes_part`. specs/Stands.antt says what an image of a device
//! stands for, and specs/Areas.antt which sectors are used for what. No device is called here.
#![tactic(auto)]

mod areas;
mod bytes;
mod codes;
mod decoding;
mod encoding;
mod half;
mod header;
pub mod laws;
mod part;
mod places;
mod rows;
mod sectors;
mod stored;
mod tools;
mod update;

pub use areas::{
    HEADERS, LARGE_SIZE, LEAST_SIZE, LOG_FIRST, LONGEST_LOG, SHORTEST_LOG, SNAPSHOT_SIZE,
    TOOLS_SIZE, program_first, program_limit_of, snapshot_first, spare_area, tools_first,
};
pub use decoding::{DecodedState, GREATEST_COUNT, decode};
pub use half::{Half, LONGEST_TEXT, Opened, Source, text_from};
pub use header::{Format, Header};
pub use part::{
    PART_CHANGES, PartLabel, changes_part, decoded_state_of_part, first_part, parts_for,
    take_changes,
};
pub use sectors::{SECTOR_BYTES, VALUES, take_values, text_sector};
pub use stored::{Stored, fresh_sector};
pub use tools::{changed_slot, take_area, take_slot};
pub use update::Update;
