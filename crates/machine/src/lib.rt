// No code: the promises, and what they are proved from.
#![tactic(auto)]
