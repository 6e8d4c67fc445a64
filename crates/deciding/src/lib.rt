// What the verdict on a readable file decides (C12.9, C12.10).
#![tactic(auto)]
