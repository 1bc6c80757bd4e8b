// Theorems about the two comparisons; nothing runs here.
#![tactic(auto)]

pub fn nothing() {}
