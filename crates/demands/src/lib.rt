// Laws alone, in specs/: the three demands as theorems about the entries, from their contracts.
#![tactic(auto)]
