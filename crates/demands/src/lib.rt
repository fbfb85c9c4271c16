// What the entries promise together: laws over the guarantees of planner and acceptance, in specs/Demands.antt. There is no code here.
#![tactic(auto)]
