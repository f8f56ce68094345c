// The function request: what the control unit asks of the device, and the addresses of the logical
// terminals that it is asked for.
ghost use Rattle.std.specs.Prelude.{◌≡◌};
ghost use Rattle.tca.specs.Fields.{request_places, terminal_places};
ghost use Rattle.tca.specs.Records.{request_of, request_bytes, cu_ready, RequestBytesComeBack};

use crate::field::{
    CUDP, CUFRP1, CUFRP2, CUFRP3, CUFRP4, CUFRV, CULTA1, CULTA2, CULTA3, CULTA4, CULTA5, CULTAD,
};
use codes::function::FunctionCode;

#[derive(Clone, Copy, PartialEq, Eq)]
pub struct Request {
    // the function code
    pub function: u8,
    pub p1: u8,
    pub p2: u8,
    pub p3: u8,
    pub p4: u8,
    // the logical terminal
    pub terminal: u8,
    // where the data begins
    pub data: u16,
}

// The address that is no logical terminal.
pub const NO_TERMINAL: u8 = 0xff;

// The first parameter of the status report that the control unit is ready.
const UNIT_READY: u8 = 0x10;

// Where each byte of a request stands, in record order.
pub const REQUEST_PLACES: [u16; 8] = [
    CUFRV.address,
    CUFRP1.address,
    CUFRP2.address,
    CUFRP3.address,
    CUFRP4.address,
    CULTAD.address,
    CUDP.address,
    CUDP.address + 1,
];

// Where the five logical terminal addresses stand.
pub const TERMINAL_PLACES: [u16; 5] = [
    CULTA1.address,
    CULTA2.address,
    CULTA3.address,
    CULTA4.address,
    CULTA5.address,
];

pub fn request_places() -> [u16; 8]
    ensures { result ≡ request_places }
{
    REQUEST_PLACES
}

pub fn terminal_places() -> [u16; 5]
    ensures { result ≡ terminal_places }
{
    TERMINAL_PLACES
}

impl From<[u8; 8]> for Request {
    ghost from_gives = { λ bytes request. request ≡ request_of bytes };

    fn from(bytes: [u8; 8]) -> Request {
        let [function, p1, p2, p3, p4, terminal, high, low] = bytes;
        let data = u16::from_be_bytes([high, low]);
        Request {
            function,
            p1,
            p2,
            p3,
            p4,
            terminal,
            data,
        }
    }
}

impl From<Request> for [u8; 8] {
    ghost from_gives = { λ request bytes. bytes ≡ request_bytes request };

    fn from(request: Request) -> [u8; 8]
        ensures value { result ≡ request_bytes request }
        ensures back { request_of result ≡ request }
    {
        let [high, low] = request.data.to_be_bytes();
        [
            request.function,
            request.p1,
            request.p2,
            request.p3,
            request.p4,
            request.terminal,
            high,
            low,
        ]
    }
}

impl Request {
    // The status report that the control unit is ready.
    pub fn cu_ready() -> Request
        ensures { result ≡ cu_ready }
    {
        Request {
            function: FunctionCode::Wcus.into(),
            p1: UNIT_READY,
            p2: 0,
            p3: 0,
            p4: 0,
            terminal: NO_TERMINAL,
            data: 0,
        }
    }
}

// Any eight bytes, read as a request and written again, are the same eight.
pub fn request_bytes_come_back()
    ensures { RequestBytesComeBack }
{}
