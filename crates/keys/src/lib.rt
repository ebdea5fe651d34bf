// Kinds of key, box numbers after ISO 6346, FNV-1a, and the translators of keys.
#![tactic(auto)]

pub mod box_number;
pub mod bytes;
pub mod digest;
pub mod fault;
pub mod fnv;
pub mod kind;
pub mod reading;
pub mod translator;
