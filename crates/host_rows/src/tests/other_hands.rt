// A host on which another hand is at work.
use super::common::{at, has, put, scratch, sync};
use host_edge::HostFiles;
use std::alloc::Allocator;
use std::fs::{self, Metadata, OpenOptions};
use std::io;
use std::test::Fail;

// The host, on which another hand makes each directory a moment earlier.
#[derive(Clone, Drop)]
struct Crowded(HostRuntime);

impl std::rt::Files for Crowded {
    type File = <HostRuntime as std::rt::Files>::File;

    type Dir = <HostRuntime as std::rt::Files>::Dir;

    fn open_file(&self, how: &OpenOptions, path: &str) -> io::Result<Self::File> {
        self.0.open_file(how, path)
    }

    fn open_dir(&self, path: &str) -> io::Result<Self::Dir> {
        self.0.open_dir(path)
    }

    fn metadata(&self, path: &str) -> io::Result<Metadata> {
        self.0.metadata(path)
    }

    fn symlink_metadata(&self, path: &str) -> io::Result<Metadata> {
        self.0.symlink_metadata(path)
    }

    fn copy(&self, from: &str, to: &str) -> io::Result<u64> {
        self.0.copy(from, to)
    }

    fn rename(&self, from: &str, to: &str) -> io::Result<()> {
        self.0.rename(from, to)
    }

    fn remove_file(&self, path: &str) -> io::Result<()> {
        self.0.remove_file(path)
    }

    fn create_dir(&self, path: &str) -> io::Result<()> {
        self.0.create_dir(path)?;
        self.0.create_dir(path)
    }

    fn remove_dir(&self, path: &str) -> io::Result<()> {
        self.0.remove_dir(path)
    }

    fn remove_dir_all<B: Allocator>(&self, alloc: B, path: &str) -> io::Result<()> {
        self.0.remove_dir_all(alloc, path)
    }
}

#[test]
fn another_hand_makes_directories(rt: HostRuntime) -> Result<(), Fail> {
    let alloc = rt.alloc();
    let root = scratch(&rt)?;
    let mut files = HostFiles::new(alloc, (Crowded(rt.clone()?), alloc));
    let file = at(&rt, alloc, &root, "a/b/file");
    put(&rt, alloc, &mut files, &file, b"text");
    sync(&rt, alloc, &mut files);
    has(&rt, alloc, &mut files, &file, b"text");
    Ok(fs::remove_dir_all(&rt, root.as_str())?)
}
