// No code: tests and lists as the other crates' definitions use them, and their laws.
#![tactic(auto)]
