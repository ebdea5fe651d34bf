// The move archive: records by number and by key over any journal, with tables that index what it keeps.
#![tactic(auto)]

pub mod archive;
mod listing;
mod loading;
mod numbers;
pub mod run;
mod search;
mod spots;
mod wanted;
