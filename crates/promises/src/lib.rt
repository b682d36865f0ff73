// What is promised of whole conversions: proofs/Lib.antt says where each promise stands, specs/ has
// the words it is put in. There is no code here.
#![tactic(auto)]
