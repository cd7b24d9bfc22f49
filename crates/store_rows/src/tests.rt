// Stores, views and saves, each beside what it is to leave or to read.
mod call_rows;
mod common;
mod crash_rows;
mod index_rows;
mod layout_rows;
mod list_rows;
mod output_rows;
mod save_rows;
mod snapshot_rows;
mod working_rows;
