// Worked cases of arguments left out, paragraphs and AUT-QE are computed in specs/. No code.
#![tactic(auto)]
