// The worked cases that document 01 marks P, and computed cases of document 02: lists, each under one theorem. There is no code here.
#![tactic(auto)]
