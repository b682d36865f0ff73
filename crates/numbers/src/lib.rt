// The laws of whole numbers on which every other crate's proofs rest: specs/ has the definitions,
// proofs/Lib.antt says which law to reach for. There is no code here.
#![tactic(auto)]
