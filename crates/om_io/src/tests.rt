//! Texts that go in and out in pieces, with calls that fail.
mod buffered;
mod memory;
mod standard;
