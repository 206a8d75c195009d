// What a change does to the slots of kind 3, which trees and drawings do not show: theorems alone, no code.

#![tactic(auto)]
