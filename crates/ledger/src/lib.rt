// Sessions by the rules of document 01, and demand 3 for every list of calls. There is no code here.
#![tactic(auto)]
