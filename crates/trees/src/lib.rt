// Laws alone, in specs/: the valid trees of documents 01 and 02 and their prices, and what holds of every accepted sheet.
#![tactic(auto)]
