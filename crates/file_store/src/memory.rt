// Files and outputs in memory, which tell what they hold, and calls of which can be made to fail.

mod contents;
mod disk;
mod errors;
mod files;
mod image;
mod lists;
mod moment;
mod names;
mod parts;
mod plan;
mod replay;
mod sink;

pub use errors::MemErr;
pub use files::MemFiles;
pub use sink::MemSink;
