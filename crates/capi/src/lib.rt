// The library's calls for C (include/alertc.h). Values go in and come back as structs; bytes, words, tables, catalogues, lives and the clock are lent.
#![tactic(auto)]

mod carriers;
mod reports;
mod tables;
mod words;
