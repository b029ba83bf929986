// Laws alone, in specs/: weighted derivations of any grammar over any playing, their least totals and how a search finds them.
#![tactic(auto)]
