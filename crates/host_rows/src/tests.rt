// The host's files and outputs beside those in memory, on a real folder.
mod common;
mod folders;
mod other_hands;
mod outputs;
mod suite;
