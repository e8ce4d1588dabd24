// No code: what holds of ledgers that are saved and loaded, by the history and without one.
#![tactic(auto)]
