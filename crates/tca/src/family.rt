// The three families of status. The device posts each in one way: it fills in the record's places and
// sets the toggle. So one text over `Family` collects all three.
ghost use Rattle.std.specs.Prelude.{◌≡◌, ℕ, ◌^◌, ◌<◌, ◌≤◌, List, length, Some, Option, ◌≢◌, slice_index, refl};
ghost use Rattle.std.proofs.Common.{sym, ap, ◌∙◌, eq-eqb, rules};
ghost use Rattle.tca.specs.Families.{synchronous_in, event_in, expedited_in};
ghost use Rattle.tca.specs.Fields.{dpsstat, dpastat, exfak, synchronous_places, event_places, expedited_places, data_area};
ghost use Rattle.tca.specs.Records.{synchronous_bytes, event_bytes, expedited_bytes, synchronous_of, event_of, expedited_of};
ghost use Rattle.tca.specs.Bytes.{if_long_is, reads_all};

use crate::field::{DPASTAT, DPSSTAT, EXFAK};
use crate::status::{
    EVENT_PLACES, EXPEDITED_PLACES, Event, ExpeditedStatus, SYNCHRONOUS_PLACES, SynchronousStatus,
};

// The record has N bytes. A clause cannot cite a constant, so a ghost member says what it is, and a small
// function ties the two.
pub trait Family<const N: usize> {
    type Record: Copy;

    // where the toggle stands that says that a record is there
    const TOGGLE_PLACE: u16;

    ghost toggle: { ℕ };

    // where the record's bytes stand, in record order
    ghost places: { List ℕ };

    ghost bytes: { Self.Record → List ℕ };

    // the record that some bytes are: none where there are too few or too many
    ghost of: { List ℕ → Option Self.Record };

    fn toggle() -> u16
        ensures { result ≡ toggle };

    fn places() -> [u16; N]
        ensures { result ≡ places };

    fn to_bytes(status: Self::Record) -> [u8; N]
        ensures { result ≡ bytes status };

    fn from_slice(read: &[u8]) -> Option<Self::Record>
        ensures { result ≡ of read.now };

    // as for any slice of places, there is memory for that many
    ghost fits: { N < 2 ^ 62 };

    // a record has a byte for each place
    ghost long: { (r : Self.Record) → length (bytes r) ≡ length places };

    // nothing is lost between a record and its bytes, either way
    ghost back: { (r : Self.Record) → of (bytes r) ≡ Some r };

    ghost whole: { (bs : List ℕ) (r : Self.Record) → of bs ≡ Some r → bytes r ≡ bs };

    // all of it stands before the data area, and the toggle apart from the record
    ghost within: { (k : ℕ) → k < length places → slice_index places k < data_area };

    ghost toggled: { toggle < data_area };

    ghost apart: { (k : ℕ) → k < length places → slice_index places k ≢ toggle };
}

// A family whose record a unit can read: as many bytes as there are places are a record, and these are six at most.
pub trait Readable<const N: usize>: Family<N> {
    ghost every: { (bs : List ℕ) → length bs ≡ length Self.Family.places → (r : Self.Record) × (Self.Family.of bs ≡ Some r) };

    ghost few: { length Self.Family.places ≤ 6 };
}

// The status that answers a function request.
pub struct Synchronous;

impl Family<4> for Synchronous {
    type Record = SynchronousStatus;

    const TOGGLE_PLACE: u16 = DPSSTAT.address;

    ghost toggle = { dpsstat };

    ghost places = { synchronous_places };

    ghost bytes = { synchronous_bytes };

    ghost of = { synchronous_in };

    ghost fits = { Prim.search rules };

    ghost long = { Prim.search rules };

    ghost back = { Prim.search rules };

    ghost whole = { λ bs r e. let held = if_long_is 4 synchronous_of bs r e in ap synchronous_bytes (sym held.1) ∙ reads_all 4 bs held.0 };

    ghost within = { Prim.search rules };

    ghost toggled = { Prim.search rules };

    ghost apart = { Prim.search rules };

    fn toggle() -> u16 {
        Self::TOGGLE_PLACE
    }

    fn places() -> [u16; 4] {
        SYNCHRONOUS_PLACES
    }

    fn to_bytes(status: SynchronousStatus) -> [u8; 4] {
        status.into()
    }

    fn from_slice(read: &[u8]) -> Option<SynchronousStatus> {
        <[u8; 4]>::try_from(read).ok().map(SynchronousStatus::from)
    }
}

// The event that the device reports by itself.
pub struct Asynchronous;

impl Family<6> for Asynchronous {
    type Record = Event;

    const TOGGLE_PLACE: u16 = DPASTAT.address;

    ghost toggle = { dpastat };

    ghost places = { event_places };

    ghost bytes = { event_bytes };

    ghost of = { event_in };

    ghost fits = { Prim.search rules };

    ghost long = { Prim.search rules };

    ghost back = { Prim.search rules };

    ghost whole = { λ bs r e. let held = if_long_is 6 event_of bs r e in ap event_bytes (sym held.1) ∙ reads_all 6 bs held.0 };

    ghost within = { Prim.search rules };

    ghost toggled = { Prim.search rules };

    ghost apart = { Prim.search rules };

    fn toggle() -> u16 {
        Self::TOGGLE_PLACE
    }

    fn places() -> [u16; 6] {
        EVENT_PLACES
    }

    fn to_bytes(event: Event) -> [u8; 6] {
        event.into()
    }

    fn from_slice(read: &[u8]) -> Option<Event> {
        <[u8; 6]>::try_from(read).ok().map(Event::from)
    }
}

// The status that is served before all others.
pub struct Expedited;

impl Family<6> for Expedited {
    type Record = ExpeditedStatus;

    const TOGGLE_PLACE: u16 = EXFAK.address;

    ghost toggle = { exfak };

    ghost places = { expedited_places };

    ghost bytes = { expedited_bytes };

    ghost of = { expedited_in };

    ghost fits = { Prim.search rules };

    ghost long = { Prim.search rules };

    ghost back = { Prim.search rules };

    ghost whole = { λ bs r e. let held = if_long_is 6 expedited_of bs r e in ap expedited_bytes (sym held.1) ∙ reads_all 6 bs held.0 };

    ghost within = { Prim.search rules };

    ghost toggled = { Prim.search rules };

    ghost apart = { Prim.search rules };

    fn toggle() -> u16 {
        Self::TOGGLE_PLACE
    }

    fn places() -> [u16; 6] {
        EXPEDITED_PLACES
    }

    fn to_bytes(status: ExpeditedStatus) -> [u8; 6] {
        status.into()
    }

    fn from_slice(read: &[u8]) -> Option<ExpeditedStatus> {
        <[u8; 6]>::try_from(read).ok().map(ExpeditedStatus::from)
    }
}

impl Readable<4> for Synchronous {
    ghost every = { λ bs e. (synchronous_of bs, rw (eq-eqb (length bs) 4 e) refl) };

    ghost few = { Prim.search rules };
}

impl Readable<6> for Asynchronous {
    ghost every = { λ bs e. (event_of bs, rw (eq-eqb (length bs) 6 e) refl) };

    ghost few = { Prim.search rules };
}

impl Readable<6> for Expedited {
    ghost every = { λ bs e. (expedited_of bs, rw (eq-eqb (length bs) 6 e) refl) };

    ghost few = { Prim.search rules };
}
