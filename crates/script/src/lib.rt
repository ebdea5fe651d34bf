// What programs over scripts share: the lines of the input, and bytes as text.
#![tactic(auto)]

pub mod input;
pub mod text;
