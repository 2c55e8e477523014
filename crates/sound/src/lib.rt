// What a sound store is, and the laws that every call keeps it. Definitions and proofs only: no code.
#![tactic(auto)]
