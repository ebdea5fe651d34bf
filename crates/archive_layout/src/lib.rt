// When the archive's index fits its journal, and what follows from it for each call: definitions and lemmas.
#![tactic(auto)]

pub mod spot;
