// Laws alone, in specs/: what a function did to a lent slice, and a list in an array of fixed length.
#![tactic(auto)]
