// The values of documents 01 and 02, computed by the checker from the definitions: specs/Table.antt has the tables, proofs/Computed.antt the statement of each.

#![tactic(auto)]
