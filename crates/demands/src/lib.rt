// The three demands, as theorems over the definitions that the public calls' contracts cite. There is no code here.
#![tactic(auto)]
