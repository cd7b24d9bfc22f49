// Texts and bytes of the formats, each beside what it is to read or print.
mod common;
mod config_rows;
mod fault_rows;
mod object_rows;
mod place_rows;
