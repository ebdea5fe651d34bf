// Turns in numbers and lent buffers alone, as C lays them out, and whole runs of them: no heap, and no type that C has not.
#![tactic(auto)]

pub mod answer;
pub mod asking;
pub mod run;
pub mod turn;
