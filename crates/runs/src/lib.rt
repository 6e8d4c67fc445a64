// Fair transition systems, their runs, and the three claims about these.
#![tactic(auto)]
