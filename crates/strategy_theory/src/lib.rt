// Strategy improvement as definitions and theorems: strategies, their values over paths, rounds, lives of an analysis, and why it ends at the least solution. The code is in `solver`.
#![tactic(auto)]
