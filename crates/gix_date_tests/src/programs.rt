//! Readers and writers: devices, runs over lines, the programs' ends, each read, write and request for memory failing.
mod commands;
mod devices;
mod failing;
mod machines;
mod memory;
mod objects;
mod runs;
mod words;
