// Objects that are put.
use super::common::{
    HELLO, NO_TREE, fault, files_with, has, has_count, is_blocked, is_damaged, is_device, is_size,
    is_too_large, long_place, repository, two_objects, with_a_repeat,
};
use file_store::MemFiles;
use object_store::put_all;

#[test]
fn objects_stand(rt: HostRuntime) {
    let alloc = rt.alloc();
    let repo = repository(&rt, alloc);
    let objects = with_a_repeat(&rt, alloc);
    let mut files = MemFiles::new(alloc);
    let put = put_all(alloc, &mut files, &repo, objects.as_slice());
    put.expect(&rt, "put");
    has(&rt, alloc, &mut files, HELLO, b"blob 6\0hello\n");
    has(&rt, alloc, &mut files, NO_TREE, b"tree 0\0");
    has_count(&rt, alloc, &files, 2);

    // a repeat is read once more and has no second file: three reads, six calls that write, two reads;
    // what stands is read, and not written again: three reads, so the 15th call on these files would fail
    files.stop_at(15);
    let again = put_all(alloc, &mut files, &repo, objects.as_slice());
    again.expect(&rt, "put again");
    is_device(&rt, put_all(alloc, &mut files, &repo, objects.as_slice()));
}

#[test]
fn the_longest_repository(rt: HostRuntime) {
    let alloc = rt.alloc();
    let objects = two_objects(&rt, alloc);
    let mut files = MemFiles::new(alloc);
    let repo = long_place(&rt, alloc, 13, [127, 127]);
    is_size(&rt, repo.as_str().len(), 3584);
    let put = put_all(alloc, &mut files, &repo, objects.as_slice());
    put.expect(&rt, "put");
    has_count(&rt, alloc, &files, 2);
}

#[test]
fn a_repository_too_long(rt: HostRuntime) {
    let alloc = rt.alloc();
    let objects = two_objects(&rt, alloc);
    let mut files = MemFiles::new(alloc);
    let repo = long_place(&rt, alloc, 13, [127, 128]);
    let told = fault(&rt, put_all(alloc, &mut files, &repo, objects.as_slice()));
    is_too_large(&rt, told, &repo, 3585);
    has_count(&rt, alloc, &files, 0);
}

#[test]
fn other_bytes_at_an_object(rt: HostRuntime) {
    let alloc = rt.alloc();
    let repo = repository(&rt, alloc);
    let objects = two_objects(&rt, alloc);
    let mut files = files_with(&rt, alloc, NO_TREE, b"tree 0");
    let told = fault(&rt, put_all(alloc, &mut files, &repo, objects.as_slice()));
    is_damaged(&rt, told, NO_TREE);
    has(&rt, alloc, &mut files, NO_TREE, b"tree 0");
    has_count(&rt, alloc, &files, 1);
}

#[test]
fn a_file_in_the_way(rt: HostRuntime) {
    let alloc = rt.alloc();
    let repo = repository(&rt, alloc);
    let objects = two_objects(&rt, alloc);
    let mut files = files_with(&rt, alloc, "/r/.dlrepo/objects", b"");
    let told = fault(&rt, put_all(alloc, &mut files, &repo, objects.as_slice()));
    is_blocked(&rt, told, HELLO);
}
