// What the five record types share: their operations, their layout in flat floats and counted loops (see specs/).

#![tactic(auto)]
