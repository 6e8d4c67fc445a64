// The system of a file, and what the file claims of its runs: true, where every condition is.
#![tactic(auto)]
