// The format of byte pages: what their bytes mean, which bytes a mounting accepts, and what is proved of both.
#![tactic(auto)]
