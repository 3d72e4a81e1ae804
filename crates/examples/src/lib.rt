// The marked examples of document 01, proved as one table of the definitions: see specs/Table.antt.
#![tactic(auto)]
