// What the archive's inner index stands for, and what is proved of its links.
#![tactic(auto)]
