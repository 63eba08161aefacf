// The calls for C and Rust. Each is an entry of a crate below, with its parameters, its answer and its contract; structs go in
// and come back by value.
#![tactic(auto)]

mod card;
mod frames;
mod labels;
mod packing;
mod plans;
mod signal_points;
mod slots;
mod states;
mod tables;
mod tlv_packets;
mod tmcc_block;
mod version;

pub use card::{s3_read_settings, s3_replace_settings};
pub use frames::{s3_code_frame, s3_read_frame, s3_source_octets};
pub use labels::{s3_labels, s3_slot_of_labels, s3_tmcc_labels, s3_tmcc_of_labels};
pub use packing::{s3_pack, s3_packets_of, s3_unpack};
pub use plans::{s3_plan_list, s3_plan_of_text};
pub use signal_points::{s3_arranged_point, s3_arranged_step, s3_point, s3_points};
pub use slots::{s3_check_parity, s3_code_slot, s3_read_slot};
pub use states::{s3_open, s3_pass, s3_place};
pub use tables::{s3_published_table, s3_published_tables, s3_table_entries, s3_tables_entries};
pub use tlv_packets::{s3_tlv_fill, s3_tlv_read};
pub use tmcc_block::{s3_code_tmcc, s3_read_tmcc};
pub use version::s3_version;
