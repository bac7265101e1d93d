// No code: how large the numbers of the open chain of a power are, stage by stage, and why none is a NaN (proofs/).

#![tactic(auto)]
