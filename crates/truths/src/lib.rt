// Truths, and tests of numbers in a row: definitions and laws alone.
#![tactic(auto)]
