// The definitions of claims, folds and calls, and the theorems about them: no code.
#![tactic(auto)]
