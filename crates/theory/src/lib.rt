// The argument that the rules are sound together: laws about the definitions of crate rules, and the three demands. No code.
#![tactic(auto)]
