// Demand 3: what an assembler of 37-bit words must report of a transmission, as definitions and theorems. There is no code here.
#![tactic(auto)]
