// The ledger, a host's world, and the sum rule over any list of calls. A proof library: it has no code.
#![tactic(auto)]
