// 01's table and figures, worked out on the definitions that the contracts cite. A proof library: it has no code.
#![tactic(auto)]
