// Theorems about printed pages: spaces dropped, lines read back; nothing runs here.
#![tactic(auto)]

pub fn nothing() {}
