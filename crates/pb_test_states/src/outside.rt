//! Calls over known bytes, in memory and on the system.
//!
//! Functions without clauses make the calls, so the proofs of the others stay short.
use pb_outside::{
    Failed, FileShelf, Gate, Load, MemShelf, MemSink, Memory, OpenGate, OutSink, Shelf, Sink,
};
use std::alloc::Global;
use std::fs;
use std::io::BufWriter;

// Begins a file, through the bound alone.
fn create<H: Shelf>(shelf: &mut H, name: &str) -> Result<(), Failed> {
    shelf.create(name)
}

// Appends a piece, through the bound alone.
fn append<H: Shelf>(shelf: &mut H, name: &str, piece: &[u8]) -> Result<(), Failed> {
    shelf.append(name, piece)
}

// Whether the file of the name is a saved one, through the bound alone.
fn is_saved<H: Shelf>(alloc: Global, shelf: &mut H, name: &str, most: u64) -> Result<bool, Load> {
    let text = shelf.load(alloc, name, most)?;
    Ok(text.as_slice() == b"plan 4 4\n".as_slice())
}

// Begins a file and appends two pieces.
fn save<H: Shelf>(shelf: &mut H, name: &str) -> Result<(), Failed> {
    create(shelf, name)?;
    append(shelf, name, b"plan ")?;
    append(shelf, name, b"4 4\n")
}

// Whether each call under this name is a fault.
fn is_refused<H: Shelf>(alloc: Global, shelf: &mut H, name: &str) -> bool {
    let loads = is_saved(alloc, shelf, name, 9) == Err(Load::Failed);
    let creates = create(shelf, name).is_err();
    let appends = append(shelf, name, b"x").is_err();
    loads & creates & appends
}

// Puts two pieces, through the bound alone.
fn print<K: Sink>(sink: &mut K) -> Result<(), Failed> {
    sink.put(b"plan ")?;
    sink.put(b"4 4\n")
}

fn pass<G: Gate>(gate: &G) {
    gate.leased(0, 1);
    gate.giving(0, 1);
}

fn reserve(shelf: &mut MemShelf, room: u128) -> Result<(), Memory> {
    shelf.reserve("c", room)
}

// Whether the shelf has a file of the name with these bytes.
fn has_file(shelf: &MemShelf, name: &str, bytes: &[u8]) -> bool {
    shelf.has(name) && shelf.file(name) == bytes
}

// A file is saved in room for it, beside another file: whether the shelf could be made ready, what
// saving and loading answers, and whether the other file stays. This function and the next three
// give None if memory runs out at first.
fn save_beside(alloc: Global) -> Option<(bool, Result<(), Failed>, Result<bool, Load>, bool)> {
    let mut shelf = MemShelf::new(alloc).ok()?;
    let is_ready = shelf.add("map", b"...\n").is_ok() & reserve(&mut shelf, 9).is_ok();
    let saved = save(&mut shelf, "c");
    let loaded = is_saved(alloc, &mut shelf, "c", 9);
    Some((is_ready, saved, loaded, has_file(&shelf, "map", b"...\n")))
}

// The second call is listed to keep three bytes: whether the shelf could be made ready, what saving
// answers, and whether they are kept.
fn save_in_part(alloc: Global) -> Option<(bool, Result<(), Failed>, bool)> {
    let mut shelf = MemShelf::new(alloc).ok()?;
    let is_ready = reserve(&mut shelf, 100).is_ok() & shelf.fail(2, 3).is_ok();
    let saved = save(&mut shelf, "c");
    Some((is_ready, saved, has_file(&shelf, "c", b"pla")))
}

// The second call is listed to keep one byte: whether that could be listed, what printing answers,
// and whether the byte is kept.
fn print_in_part(alloc: Global) -> Option<(bool, Result<(), Failed>, bool)> {
    let mut sink = MemSink::new(alloc, 100).ok()?;
    let is_ready = sink.fail(2, 1).is_ok();
    let printed = print(&mut sink);
    Some((is_ready, printed, sink.bytes() == b"plan 4".as_slice()))
}

// What is answered if more room is reserved than any memory has.
fn reserve_too_much(alloc: Global) -> Option<Result<(), Memory>> {
    let mut shelf = MemShelf::new(alloc).ok()?;
    Some(reserve(&mut shelf, 1 << 100))
}

#[test]
fn memory_keeps_what_is_saved_and_put(rt: HostRuntime) {
    let alloc = rt.alloc();
    assert_eq!(rt; save_beside(alloc), Some((true, Ok(()), Ok(true), true)));
    assert_eq!(rt; save_in_part(alloc), Some((true, Err(Failed), true)));
    assert_eq!(rt; print_in_part(alloc), Some((true, Err(Failed), true)));
    assert_eq!(rt; reserve_too_much(alloc), Some(Err(Memory)));
    assert_eq!(rt; MemSink::new(alloc, 1 << 100).err(), Some(Memory));
}

// What is answered as a file is saved and loaded twice, once with too little allowed; and whether
// each call under its folder's name is a fault.
fn use_folder<H: Shelf>(
    alloc: Global,
    shelf: &mut H,
) -> (
    Result<(), Failed>,
    Result<bool, Load>,
    Result<bool, Load>,
    bool,
) {
    let saved = save(shelf, "shelf_of_test/c");
    let whole = is_saved(alloc, shelf, "shelf_of_test/c", 9);
    let long = is_saved(alloc, shelf, "shelf_of_test/c", 8);
    let folder = is_refused(alloc, shelf, "shelf_of_test");
    (saved, whole, long, folder)
}

// Of the last names one is empty, one has a NUL, and one has no file any more.
#[test]
fn system_files_are_saved_and_loaded(rt: HostRuntime) {
    let alloc = rt.alloc();
    let is_made = fs::create_dir(&rt, "shelf_of_test").is_ok();
    let mut shelf = FileShelf::new(&rt);
    let seen = use_folder(alloc, &mut shelf);
    let file_is_gone = fs::remove_file(&rt, "shelf_of_test/c").is_ok();
    let folder_is_gone = fs::remove_dir(&rt, "shelf_of_test").is_ok();
    let names = [
        is_refused(alloc, &mut shelf, ""),
        is_refused(alloc, &mut shelf, "a\0b"),
        is_refused(alloc, &mut shelf, "shelf_of_test/c"),
    ];
    let long = Err(Load::TooLong { seen: 9 });
    assert_eq!(rt; (is_made, file_is_gone, folder_is_gone), (true, true, true));
    assert_eq!(rt; seen, (Ok(()), Ok(true), long, true));
    assert_eq!(rt; names, [true; 3]);
}

// What printing answers, and whether the file of the system has all of it while the sink is still
// there.
fn print_and_read<K: Sink>(rt: &HostRuntime, sink: &mut K) -> (Result<(), Failed>, bool) {
    let printed = print(sink);
    match fs::read(rt, "sink_of_test") {
        Ok(text) => (printed, text.as_slice() == b"plan 4 4\n".as_slice()),
        Err(_) => (printed, false),
    }
}

// The same of a sink with a buffer. None if the system gives no file, or memory runs out.
fn print_to_file(rt: &HostRuntime) -> Option<(Result<(), Failed>, bool)> {
    let file = fs::create(rt, "sink_of_test").ok()?;
    let writer = BufWriter::new(rt.alloc(), file).ok()?;
    let mut sink = OutSink::new(writer);
    Some(print_and_read(rt, &mut sink))
}

#[test]
fn output_leaves_no_byte_in_a_buffer(rt: HostRuntime) {
    let seen = print_to_file(&rt);
    let is_gone = fs::remove_file(&rt, "sink_of_test").is_ok();
    assert_eq!(rt; (seen, is_gone), (Some((Ok(()), true)), true));
}

#[test]
fn open_gate_holds_nobody() {
    pass(&OpenGate);
}
