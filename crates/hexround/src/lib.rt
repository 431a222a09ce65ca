// What is written as HEX is read back as the same image.
#![tactic(auto)]
