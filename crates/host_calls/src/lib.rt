// The calls that change a book, on words: what they are (specs/Calls.antt), and laws. Crates `host_apply`, `host_bootstrap` and `host_step` have the code.
#![tactic(auto)]
