// Byte pages: a journal that lies in two lent slices of bytes, entries and values.
#![tactic(auto)]

mod check;
mod entries;
mod layout;
pub mod look;
mod numbers;
mod page;
mod pages;
mod raw;
mod row;
pub mod sizes;
mod value;

pub use pages::Pages;
