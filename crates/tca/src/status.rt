// What the device reports: the status that answers a request, the event that comes by itself, and the
// expedited status.
ghost use Rattle.std.specs.Prelude.{◌≡◌};
ghost use Rattle.tca.specs.Records.{synchronous_of, synchronous_bytes, event_of, event_bytes, expedited_of, expedited_bytes};

use crate::field::{
    DAEP, DAEP2, DAEP3, DAEP4, DAEV, DALTAD, DSSP, DSSP2, DSSP3, DSSV, EXFD1, EXFD2, EXFD3, EXFD4,
    EXFLT, EXFRQ,
};

#[derive(Clone, Copy, PartialEq, Eq)]
pub struct SynchronousStatus {
    pub dssv: u8,
    pub dssp: u8,
    pub dssp2: u8,
    pub dssp3: u8,
}

// Where each byte stands, in record order.
pub const SYNCHRONOUS_PLACES: [u16; 4] = [DSSV.address, DSSP.address, DSSP2.address, DSSP3.address];

impl From<[u8; 4]> for SynchronousStatus {
    ghost from_gives = { λ bytes status. status ≡ synchronous_of bytes };

    fn from(bytes: [u8; 4]) -> SynchronousStatus {
        let [dssv, dssp, dssp2, dssp3] = bytes;
        SynchronousStatus {
            dssv,
            dssp,
            dssp2,
            dssp3,
        }
    }
}

impl From<SynchronousStatus> for [u8; 4] {
    ghost from_gives = { λ status bytes. bytes ≡ synchronous_bytes status };

    fn from(status: SynchronousStatus) -> [u8; 4]
        ensures value { result ≡ synchronous_bytes status }
        ensures back { synchronous_of result ≡ status }
    {
        [status.dssv, status.dssp, status.dssp2, status.dssp3]
    }
}

#[derive(Clone, Copy, PartialEq, Eq)]
pub struct Event {
    pub daev: u8,
    pub daep: u8,
    pub daep2: u8,
    pub daep3: u8,
    pub daep4: u8,
    pub daltad: u8,
}

// Where each byte stands, in record order.
pub const EVENT_PLACES: [u16; 6] = [
    DAEV.address,
    DAEP.address,
    DAEP2.address,
    DAEP3.address,
    DAEP4.address,
    DALTAD.address,
];

impl From<[u8; 6]> for Event {
    ghost from_gives = { λ bytes event. event ≡ event_of bytes };

    fn from(bytes: [u8; 6]) -> Event {
        let [daev, daep, daep2, daep3, daep4, daltad] = bytes;
        Event {
            daev,
            daep,
            daep2,
            daep3,
            daep4,
            daltad,
        }
    }
}

impl From<Event> for [u8; 6] {
    ghost from_gives = { λ event bytes. bytes ≡ event_bytes event };

    fn from(event: Event) -> [u8; 6]
        ensures value { result ≡ event_bytes event }
        ensures back { event_of result ≡ event }
    {
        [
            event.daev,
            event.daep,
            event.daep2,
            event.daep3,
            event.daep4,
            event.daltad,
        ]
    }
}

#[derive(Clone, Copy, PartialEq, Eq)]
pub struct ExpeditedStatus {
    pub exfrq: u8,
    pub exflt: u8,
    pub exfd1: u8,
    pub exfd2: u8,
    pub exfd3: u8,
    pub exfd4: u8,
}

// Where each byte stands, in record order.
pub const EXPEDITED_PLACES: [u16; 6] = [
    EXFRQ.address,
    EXFLT.address,
    EXFD1.address,
    EXFD2.address,
    EXFD3.address,
    EXFD4.address,
];

impl From<[u8; 6]> for ExpeditedStatus {
    ghost from_gives = { λ bytes status. status ≡ expedited_of bytes };

    fn from(bytes: [u8; 6]) -> ExpeditedStatus {
        let [exfrq, exflt, exfd1, exfd2, exfd3, exfd4] = bytes;
        ExpeditedStatus {
            exfrq,
            exflt,
            exfd1,
            exfd2,
            exfd3,
            exfd4,
        }
    }
}

impl From<ExpeditedStatus> for [u8; 6] {
    ghost from_gives = { λ status bytes. bytes ≡ expedited_bytes status };

    fn from(status: ExpeditedStatus) -> [u8; 6]
        ensures value { result ≡ expedited_bytes status }
        ensures back { expedited_of result ≡ status }
    {
        [
            status.exfrq,
            status.exflt,
            status.exfd1,
            status.exfd2,
            status.exfd3,
            status.exfd4,
        ]
    }
}
