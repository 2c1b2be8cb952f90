//! Tests of the readers of ELF, by what those make public: a module for each crate.
#![tactic(auto)]

#[cfg(test)]
mod elf_read;
