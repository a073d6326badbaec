// The promises for every list of calls, on bytes and on values: definitions, laws and promises only, in specs/.
#![tactic(auto)]
