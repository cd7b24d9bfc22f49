// What a barrier has to sync: files that were written, and directories whose names may not be safe.
//
// A name is safe once its directory is synced. So a barrier syncs the directories in which a name
// changed, and once those above the places that were written: a directory that was found there may
// have been made a moment ago, or left by a call that was cut off.

use crate::paths::{is_directory, kind_of};
use file_store::Kind;
use std::alloc::{AllocError, Global};
use std::collections::BTreeSet;
use std::fs::{self, OpenFile};
use std::io::{self, Error, ErrorKind};

/// The paths that were changed since the last barrier, and the directories that were reached.
#[derive(Drop)]
pub(crate) struct Dirty {
    files: BTreeSet<String>,
    directories: BTreeSet<String>,
    // above directories that were found
    above: BTreeSet<String>,
    // their way from the root is synced, or noted for the next barrier
    reached: BTreeSet<String>,
    // a sync failed
    lost: bool,
}

impl Dirty {
    pub(crate) fn new(alloc: Global) -> Dirty {
        Dirty {
            files: BTreeSet::new(alloc),
            directories: BTreeSet::new(alloc),
            above: BTreeSet::new(alloc),
            reached: BTreeSet::new(alloc),
            lost: false,
        }
    }

    /// A file's bytes changed.
    pub(crate) fn note_file(&mut self, alloc: Global, path: &str) -> Result<(), AllocError> {
        self.files.insert(String::from_str(alloc, path)?)?;
        Ok(())
    }

    /// The name of this path changed, in the directory above it. Whether that wasn't noted before.
    pub(crate) fn note_name(&mut self, alloc: Global, path: &str) -> Result<bool, AllocError> {
        let parent = String::from_str(alloc, parent_of(path))?;
        Ok(self.directories.insert(parent)?)
    }

    /// The file is gone, by this hand.
    pub(crate) fn forget_file(&mut self, path: &str) {
        self.files.remove(path);
    }

    // The directory is gone, by this hand.
    fn forget_directory(&mut self, path: &str) {
        self.directories.remove(path);
        self.above.remove(path);
        self.reached.remove(path);
    }

    /// Whether a file stands where one is to be put. An empty directory is as nothing: it is
    /// removed. At a link, and at all else that is no file, this is an error.
    pub(crate) fn make_room<R: std::rt::Files + AllocGlobal + Clone + Drop>(
        &mut self,
        rt: &R,
        path: &str,
    ) -> io::Result<bool> {
        match kind_of(rt, path)? {
            Kind::File => Ok(true),
            Kind::Absent => {
                if is_directory(rt, path)? {
                    fs::remove_dir(rt, path)?;
                    self.forget_directory(path);
                }
                Ok(false)
            }
            Kind::Dir | Kind::Other => Err(Error::from(ErrorKind::AlreadyExists)),
        }
    }

    /// Makes the directories above a path that aren't there.
    pub(crate) fn reach_above<R: std::rt::Files>(
        &mut self,
        rt: &R,
        alloc: Global,
        path: &str,
    ) -> io::Result<()> {
        let directories = self.unreached_above(alloc, path)?;
        for directory in directories.iter().rev() {
            self.reach(rt, alloc, directory)?;
        }
        Ok(())
    }

    // The directories above a path that weren't reached yet, the lowest first.
    fn unreached_above<'a>(
        &self,
        alloc: Global,
        path: &'a str,
    ) -> Result<Vec<&'a str>, AllocError> {
        let mut found = Vec::new(alloc);
        let mut at = parent_of(path);
        for _ in 0..path.len() {
            if at == "/" || self.reached.contains(at) {
                break;
            }
            found.push(at)?;
            at = parent_of(at);
        }
        Ok(found)
    }

    // Makes a directory where none is. That above it was reached.
    fn reach<R: std::rt::Files>(
        &mut self,
        rt: &R,
        alloc: Global,
        directory: &str,
    ) -> io::Result<()> {
        if is_directory(rt, directory)? {
            let parent = String::from_str(alloc, parent_of(directory))?;
            self.above.insert(parent)?;
        } else {
            self.note_name(alloc, directory)?;
            make_directory(rt, directory)?;
        }
        self.reached.insert(String::from_str(alloc, directory)?)?;
        Ok(())
    }

    /// Removes the directories above a path as long as they are empty, and memory lasts.
    pub(crate) fn remove_emptied<R: std::rt::Files>(&mut self, rt: &R, alloc: Global, path: &str) {
        let mut at = parent_of(path);
        for _ in 0..path.len() {
            if !self.remove_empty(rt, alloc, at) {
                break;
            }
            at = parent_of(at);
        }
    }

    // Whether the directory was empty, and is removed.
    fn remove_empty<R: std::rt::Files>(&mut self, rt: &R, alloc: Global, directory: &str) -> bool {
        let Ok(noted) = self.note_name(alloc, directory) else {
            return false;
        };
        let removed = fs::remove_dir(rt, directory).is_ok();
        if removed {
            self.forget_directory(directory);
        } else if noted {
            self.directories.remove(parent_of(directory));
        }
        removed
    }

    /// Syncs a file that was written, before its name changes.
    pub(crate) fn sync_file<R: std::rt::Files>(&mut self, rt: &R, path: &str) -> io::Result<()> {
        if !self.files.contains(path) {
            return Ok(());
        }
        if let Err(e) = sync_path(rt, path) {
            self.lost = true;
            return Err(e);
        }
        self.files.remove(path);
        Ok(())
    }

    /// Syncs all of it. A path that is gone, though it wasn't removed here, is an error. After an
    /// error each later sync is one too: the host may forget what it couldn't keep.
    pub(crate) fn sync<R: std::rt::Files>(&mut self, rt: &R) -> io::Result<()> {
        if self.lost {
            return Err(Error::from(ErrorKind::Other));
        }
        self.lost = true;
        sync_paths(rt, &self.files)?;
        sync_paths(rt, &self.directories)?;
        sync_above(rt, &self.above)?;
        self.files.clear();
        self.directories.clear();
        self.above.clear();
        self.lost = false;
        Ok(())
    }
}

// The directory above a path, the root above itself.
fn parent_of(path: &str) -> &str {
    match path.rfind('/') {
        None => "/",
        Some(0) => "/",
        Some(at) => &path[..at],
    }
}

// That another hand makes it at the same moment is no fault.
fn make_directory<R: std::rt::Files>(rt: &R, path: &str) -> io::Result<()> {
    let Err(e) = fs::create_dir(rt, path) else {
        return Ok(());
    };
    if e.kind() == ErrorKind::AlreadyExists && is_directory(rt, path)? {
        return Ok(());
    }
    Err(e)
}

fn sync_path<R: std::rt::Files>(rt: &R, path: &str) -> io::Result<()> {
    fs::open(rt, path)?.sync_all()
}

fn sync_paths<R: std::rt::Files>(rt: &R, paths: &BTreeSet<String>) -> io::Result<()> {
    for path in paths {
        sync_path(rt, path.as_str())?;
    }
    Ok(())
}

// Nothing changed in these directories here. One that may not be opened, or that no sync is for, is
// passed over.
fn sync_above<R: std::rt::Files>(rt: &R, paths: &BTreeSet<String>) -> io::Result<()> {
    for path in paths {
        if let Err(e) = sync_path(rt, path.as_str()) {
            if e.kind() != ErrorKind::PermissionDenied && e.kind() != ErrorKind::InvalidInput {
                return Err(e);
            }
        }
    }
    Ok(())
}
