//! The library `libobjconv.a`: the calls of `objconv.h`, over the readers and writers of all formats.
#![tactic(auto)]

mod calls;
mod converter;
