//! The ledger of a bench: what it should hold after given calls, however it stores that. Definitions only; there is no code.
#![tactic(auto)]
