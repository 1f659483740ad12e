//! A shelf in memory, whose calls can be made to fail.
ghost use Rattle.std.specs.Prelude.{◌≡◌, ◌+◌, ◌-◌, ◌≤◌, ◌↔◌, ℕ, Some, None, [], length, not, is_some, is_ok, IsTrue, IsSome, IsOk, IsErrOf, IsSomeAnd, IfSome, IfOk, IfErr, OnOk, OnErr, if◌then◌else◌, unwrap_or, false};
ghost use Rattle.std.specs.Option.{option_map};
ghost use Rattle.std.specs.List.{position};
ghost use Rattle.pb_outside.specs.Outside.{IfTold, IfHeld, KeepsAll, KeepsOthers, KeepsHolds, IsTooLong, SeesOneMore, IsSameOrEmpty, AppendsTo, AppendsPartTo, HasCause, HasLoadCause};
ghost use Rattle.pb_outside.specs.Calls.{Loaded, LoadFailed, Appended, create_call, Notes, NotesAppendFailed, IsNoFault, KeepsLoads};
ghost use Rattle.pb_outside.specs.Memory.{is_named, place_of, place_or_new, file_in, room_in, file_of, room_of, emptied, grown, grown_file, load_fails, after_call, with_listed, KeepsFiles, KeepsRooms, KeepsOtherRooms, KeepsOtherPlaces, IsCopyError, IsLoadError, HasRoom, HasFile, GrowsBy, CreateSucceeds, AppendSucceeds};

use crate::calls::Calls;
use crate::events::{Begun, Grown, PartlyGrown, Read, Unread};
use crate::place::Place;
use crate::transcript::Transcript;
use crate::{Failed, Load, Memory, Shelf};
use std::alloc::Global;
use std::marker::Model;

/// A shelf in memory: files, room that is reserved for files to come, and a list of calls that are
/// to fail.
#[derive(Drop)]
pub struct MemShelf {
    alloc: Global,
    places: Vec<Place>,
    calls: Calls,
    transcript: Transcript,
}

impl Model for MemShelf {
    ghost use Rattle.pb_outside.specs.Memory.{ShelfView};

    ghost Value = { ShelfView };

    ghost view = { λ s. record {
      places = s.places.items;
      calls = s.calls;
      transcript = s.transcript.calls;
    } };
}

// The index of the place of this name.
fn index_of(places: &[Place], name: &str) -> Option<usize>
    ensures { result ≡ position (is_named name.now) places.now }
{
    places.iter().position(|place| place.is_named(name))
}

// The file of this name.
fn find_file<'a>(places: &'a [Place], name: &str) -> Option<&'a [u8]>
    ensures { option_map (λ bytes. bytes.now) result ≡ file_in places.now name.now }
{
    let i = index_of(places, name)?;
    places[i].contents()
}

// Puts a file with these bytes under the name.
fn put_file(alloc: Global, places: &mut Vec<Place>, name: &str, bytes: &[u8]) -> Result<(), Memory>
    ensures here { OnOk result (place_of places.new.items name.now
        ≡ Some (record (place_or_new places.old.items name.now) { bytes = Some bytes.now })) }
    ensures others { OnOk result (KeepsOtherPlaces places.old.items places.new.items name.now) }
    ensures err { OnErr result (places.new.items ≡ places.old.items) }
{
    if let Some(i) = index_of(places, name) {
        return places[i].put(alloc, bytes);
    }
    let mut place = Place::new(alloc, name)?;
    // The place is complete before it is added, so an error leaves the places as they were.
    place.put(alloc, bytes)?;
    places.push(place)?;
    Ok(())
}

// Reserves room for so many bytes under the name.
fn reserve_room(
    alloc: Global,
    places: &mut Vec<Place>,
    name: &str,
    room: usize,
) -> Result<(), Memory>
    ensures here { OnOk result (place_of places.new.items name.now
        ≡ Some (record (place_or_new places.old.items name.now) { room = Some room })) }
    ensures others { OnOk result (KeepsOtherPlaces places.old.items places.new.items name.now) }
    ensures err { OnErr result (places.new.items ≡ places.old.items) }
{
    if let Some(i) = index_of(places, name) {
        return places[i].reserve(alloc, room);
    }
    let mut place = Place::new(alloc, name)?;
    // The place is complete before it is added, so an error leaves the places as they were.
    place.reserve(alloc, room)?;
    places.push(place)?;
    Ok(())
}

// Begins an empty file under the name, if room is reserved.
fn create_file(places: &mut [Place], name: &str) -> bool
    ensures done { result ≡ is_some (room_in places.old name.now) }
    ensures here { place_of places.new name.now
        ≡ (if result then option_map emptied (place_of places.old name.now)
        else place_of places.old name.now) }
    ensures others { KeepsOtherPlaces places.old places.new name.now }
{
    match index_of(places, name) {
        Some(i) => places[i].create(),
        None => false,
    }
}

// Appends to the named file as much of the piece as has room, or as much as a listed failure keeps.
// An error is the number of bytes kept if that is less than the whole piece.
fn append_file(
    places: &mut [Place],
    name: &str,
    piece: &[u8],
    kept: Option<u64>,
) -> Result<(), usize>
    ensures done { IsOk result ↔ (kept ≡ None) × IsSomeAnd (file_in places.old name.now)
        (λ bytes. length piece.now ≤ unwrap_or (room_in places.old name.now) 0 - length bytes) }
    ensures here { place_of places.new name.now ≡ option_map (λ place. grown place kept piece.now)
        (place_of places.old name.now) }
    ensures others { KeepsOtherPlaces places.old places.new name.now }
    ensures part { IfErr result (λ n. GrowsBy n (file_in places.old name.now)
        (file_in places.new name.now) piece.now) }
{
    match index_of(places, name) {
        Some(i) => places[i].append(piece, kept),
        None => Err(0),
    }
}

impl MemShelf {
    /// A shelf with no file, no room and no listed failure.
    pub fn new(alloc: Global) -> Result<MemShelf, Memory>
        ensures { IfOk result (λ shelf. shelf
            ≡ record {
              places = [];
              calls = record { count = 0; faults = 0; listed = [] };
              transcript = [];
            }) }
    {
        Ok(MemShelf {
            alloc,
            places: Vec::new(alloc),
            calls: Calls::new(alloc),
            transcript: Transcript::new(),
        })
    }

    /// Puts a file with these bytes on the shelf, in place of one that may be there. Room that is
    /// reserved for the name stays. No call of `Shelf`: it is never listed, and isn't counted.
    pub fn add(&mut self, name: &str, bytes: &[u8]) -> Result<(), Memory>
        ensures file { OnOk result (file_of self.new name.now ≡ Some bytes.now) }
        ensures others { OnOk result (KeepsOthers (file_of self.old) (file_of self.new) name.now) }
        ensures rooms { OnOk result (KeepsRooms self.old self.new) }
        ensures calls { self.new.calls ≡ self.old.calls }
        ensures transcript { self.new.transcript ≡ self.old.transcript }
        ensures err { OnErr result (self.new ≡ self.old) }
    {
        put_file(self.alloc, &mut self.places, name, bytes)
    }

    /// Reserves room for so many bytes in all under the name: only such a name can be created, and
    /// its file then grows to that length. The room is taken now. If memory runs out, or no block
    /// of memory could be so long, the answer is `Memory`.
    pub fn reserve(&mut self, name: &str, room: u128) -> Result<(), Memory>
        ensures room { OnOk result (room_of self.new name.now ≡ Some room) }
        ensures others { OnOk result (KeepsOtherRooms self.old self.new name.now) }
        ensures files { OnOk result (KeepsFiles self.old self.new) }
        ensures calls { self.new.calls ≡ self.old.calls }
        ensures transcript { self.new.transcript ≡ self.old.transcript }
        ensures err { OnErr result (self.new ≡ self.old) }
    {
        let Ok(room) = usize::try_from(room) else {
            return Err(Memory);
        };
        reserve_room(self.alloc, &mut self.places, name, room)
    }

    /// Lists a call of `load`, `create` or `append` that is to fail: its number, from 1, among all
    /// of them, and how many bytes of its piece an `append` keeps at most. A `create` that is to
    /// fail leaves the file as before. If a number is listed twice, the first listing counts.
    pub fn fail(&mut self, call: u64, kept: u64) -> Result<(), Memory>
        ensures ok { OnOk result (self.new ≡ record self.old
            { calls = with_listed self.old.calls call kept }) }
        ensures err { OnErr result (self.new ≡ self.old) }
    {
        self.calls.list(call, kept)
    }

    /// Whether a file has this name.
    pub fn has(&self, name: &str) -> bool
        ensures { result ≡ is_some (file_of self.now name.now) }
    {
        find_file(&self.places, name).is_some()
    }

    /// The bytes of the file of this name.
    pub fn file(&self, name: &str) -> &[u8]
        requires { IsSome (file_of self.now name.now) }
        ensures { file_of self.now name.now ≡ Some result.now }
    {
        find_file(&self.places, name).unwrap()
    }
}

impl Shelf for MemShelf {
    ghost calls = { λ s. s.transcript };

    ghost files = { λ s. Some (file_of s) };

    ghost faults = { λ s. s.calls.faults };

    ghost can_hold = { HasRoom };

    ghost can_load = { HasFile };

    fn load(&mut self, alloc: Global, name: &str, most: u64) -> Result<Vec<u8>, Load>
        ensures whole { IfOk result (λ bytes. file_of self.old name.now ≡ Some bytes.items) }
        ensures short { IfOk result (λ bytes. length bytes.items ≤ most) }
        ensures long { IfErr result (λ e. IsTooLong (file_of self.old) name.now most e) }
        ensures seen { IfErr result (λ e. SeesOneMore most e) }
        ensures same { IfTold (Some (file_of self.old)) (Some (file_of self.new)) KeepsAll }
        ensures sure { HasFile self.old name.now → IfErr result IsNoFault }
        ensures holds { KeepsHolds (HasRoom self.old) (HasRoom self.new) }
        ensures loads { KeepsLoads (HasFile self.old) (HasFile self.new) }
        ensures noted { IfOk result (λ bytes. Notes self.old.transcript self.new.transcript
            (Loaded name.now most bytes.items)) }
        ensures noted_error { IfErr result (λ e. Notes self.old.transcript self.new.transcript
            (LoadFailed name.now most e)) }
        ensures cause { HasLoadCause self.old.calls.faults self.new.calls.faults result }

        // It fails if and only if the call is listed or no file has the name. Memory runs out only
        // for a file that isn't too long.
        ensures exact { IsErrOf result Load.Failed ↔ IsTrue (load_fails self.old name.now) }
        ensures memory { IsErrOf result Load.Memory
            → IsSomeAnd (file_of self.old name.now) (λ bytes. length bytes ≤ most) }
        ensures places { self.new.places ≡ self.old.places }
        ensures calls { self.new.calls ≡ after_call self.old.calls
            (not (load_fails self.old name.now)) }
    {
        // The call is counted first, so one that runs out of memory counts too.
        let listed = self.calls.begin();
        match load_from(alloc, &self.places, name, most, listed.is_some()) {
            Ok(bytes) => {
                let call = Read {
                    name,
                    most,
                    bytes: &bytes,
                };
                self.transcript = self.transcript.and(&call);
                Ok(bytes)
            }
            Err(why) => {
                if why == Load::Failed {
                    self.calls.fault();
                }
                self.transcript = self.transcript.and(&Unread { name, most, why });
                Err(why)
            }
        }
    }

    fn create(&mut self, name: &str) -> Result<(), Failed>
        ensures ok { OnOk result (IfTold (Some (file_of self.old)) (Some (file_of self.new))
            (λ old new. new name.now ≡ Some [])) }
        ensures err { OnErr result (IfTold (Some (file_of self.old)) (Some (file_of self.new))
            (λ old new. IsSameOrEmpty old new name.now)) }
        ensures others { IfTold (Some (file_of self.old)) (Some (file_of self.new))
            (λ old new. KeepsOthers old new name.now) }
        ensures sure { (n : ℕ) → HasRoom self.old name.now n → IsOk result }
        ensures holds { KeepsHolds (HasRoom self.old) (HasRoom self.new) }
        ensures loads { KeepsLoads (HasFile self.old) (HasFile self.new) }
        ensures noted { Notes self.old.transcript self.new.transcript
            (create_call name.now result) }
        ensures cause { HasCause self.old.calls.faults self.new.calls.faults result }

        // It fails if and only if the call is listed or no room is reserved. Then it changes no
        // file.
        ensures exact { IsOk result ↔ CreateSucceeds self.old name.now }
        ensures unchanged { OnErr result (KeepsFiles self.old self.new) }
        ensures rooms { KeepsRooms self.old self.new }
        ensures calls { self.new.calls ≡ after_call self.old.calls (is_ok result) }
    {
        let listed = self.calls.begin();
        // A listed call isn't tried, so it leaves the file as it was.
        if listed.is_none() {
            if create_file(&mut self.places, name) {
                self.transcript = self.transcript.and(&Begun { name, done: true });
                return Ok(());
            }
        }
        self.calls.fault();
        self.transcript = self.transcript.and(&Begun { name, done: false });
        Err(Failed)
    }

    fn append(&mut self, name: &str, piece: &[u8]) -> Result<(), Failed>
        ensures ok { OnOk result (IfTold (Some (file_of self.old)) (Some (file_of self.new))
            (λ old new. AppendsTo old new name.now piece.now)) }
        ensures err { OnErr result (IfTold (Some (file_of self.old)) (Some (file_of self.new))
            (λ old new. AppendsPartTo old new name.now piece.now)) }
        ensures others { IfTold (Some (file_of self.old)) (Some (file_of self.new))
            (λ old new. KeepsOthers old new name.now) }
        ensures sure { IfHeld (Some (file_of self.old)) name.now (length piece.now)
            (HasRoom self.old name.now) (IsOk result) }
        ensures holds { KeepsHolds (HasRoom self.old) (HasRoom self.new) }
        ensures loads { KeepsLoads (HasFile self.old) (HasFile self.new) }
        ensures noted { OnOk result (Notes self.old.transcript self.new.transcript
            (Appended name.now piece.now)) }
        ensures noted_error { OnErr result (NotesAppendFailed self.old.transcript self.new.transcript
            (Some (file_of self.old)) (Some (file_of self.new)) name.now piece.now) }
        ensures cause { HasCause self.old.calls.faults self.new.calls.faults result }

        // It fails if and only if the call is listed, no file has the name or the room ends. It
        // then keeps as much as is allowed and fits.
        ensures exact { IsOk result ↔ AppendSucceeds self.old name.now (length piece.now) }
        ensures kept { file_of self.new name.now ≡ grown_file self.old name.now piece.now }
        ensures rooms { KeepsRooms self.old self.new }
        ensures calls { self.new.calls ≡ after_call self.old.calls (is_ok result) }
    {
        let listed = self.calls.begin();
        match append_file(&mut self.places, name, piece, listed) {
            Ok(()) => {
                self.transcript = self.transcript.and(&Grown { name, piece });
                Ok(())
            }
            Err(kept) => {
                self.calls.fault();
                self.transcript = self.transcript.and(&PartlyGrown { name, piece, kept });
                Err(Failed)
            }
        }
    }
}

// The bytes of the file of this name, if the call isn't to fail.
fn load_from(
    alloc: Global,
    places: &[Place],
    name: &str,
    most: u64,
    fails: bool,
) -> Result<Vec<u8>, Load>
    ensures whole { IfOk result (λ bytes. (fails ≡ false)
        × (file_in places.now name.now ≡ Some bytes.items)) }
    ensures short { IfOk result (λ bytes. length bytes.items ≤ most) }
    ensures causes { IfErr result (IsLoadError fails (file_in places.now name.now) most) }
{
    if !fails {
        if let Some(bytes) = find_file(places, name) {
            return copy_of(alloc, bytes, most);
        }
    }
    Err(Load::Failed)
}

// A copy of a file's bytes, if there are at most so many.
fn copy_of(alloc: Global, bytes: &[u8], most: u64) -> Result<Vec<u8>, Load>
    ensures whole { IfOk result (λ copy. copy.items ≡ bytes.now) }
    ensures short { IfOk result (λ copy. length copy.items ≤ most) }
    ensures causes { IfErr result (λ e. IsCopyError e (length bytes.now) most) }
{
    // The length comes first, so memory runs out only for a file that isn't too long.
    if bytes.len() as u64 > most {
        return Err(Load::TooLong { seen: most + 1 });
    }
    match bytes.to_vec(alloc) {
        Ok(copy) => Ok(copy),
        Err(_) => Err(Load::Memory),
    }
}
