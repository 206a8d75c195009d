// The mathematics of tags, trees and stores: definitions in specs/, theorems in proofs/, and no code.

#![tactic(auto)]
